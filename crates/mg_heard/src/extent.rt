ghost use Rattle.std.specs.Prelude.{◌≡◌};
ghost use Rattle.mg_heard.specs.Verdict.{is_within};

use crate::moment::Moment;
use mg_dates::Date;

/// The time that a script covers.
#[derive(Clone, Copy, Debug, PartialEq, Eq)]
pub struct Extent {
    /// The first tick whose time is known, or `None` if the script has no date.
    pub first: Option<Moment>,
    /// The tick that follows the last tick of the script.
    pub end: Moment,
}

impl Extent {
    /// Returns whether the script covers a time.
    pub fn covers(&self, time: Date) -> bool
        ensures value { result ≡ is_within self.now time }
    {
        let Some(first) = self.first else {
            return false;
        };
        first.is_past(time) && self.end.is_future(time)
    }
}
