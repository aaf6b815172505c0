ghost use Rattle.std.specs.Prelude.{◌≡◌};
ghost use Rattle.mg_heard.specs.Verdict.{is_between, is_in_gap};

use crate::moment::Moment;
use mg_dates::Date;

/// A period in which the gateway did not run or for which the script has no ticks, or the moment at which an operator
/// set the fence.
///
/// If the gateway was restarted, its script has the ticks that were missed. If the clock was set, the script has no
/// ticks between `first` and `end`, and if the clock was set back, `end` has the earlier date. If an operator set the
/// fence, `end` is `first`.
#[derive(Clone, Copy, Debug, PartialEq, Eq)]
pub struct Gap {
    pub first: Moment,
    /// The first moment after the gap.
    pub end: Moment,
    /// The number to which an operator set the fence, or `None` if the gap has another cause.
    pub fence: Option<u32>,
}

/// Returns whether a time is known to lie between two moments.
fn is_between(first: &Moment, end: &Moment, time: Date) -> bool
    ensures value { result ≡ is_between first.now end.now time }
{
    first.is_past(time) && end.is_future(time)
}

impl Gap {
    /// Returns whether a time is known to lie in the gap.
    pub(crate) fn contains(&self, time: Date) -> bool
        ensures value { result ≡ is_in_gap self.now time }
    {
        is_between(&self.first, &self.end, time) || is_between(&self.end, &self.first, time)
    }
}
