ghost use Rattle.std.specs.Prelude.{◌≡◌, false};
ghost use Rattle.mg_heard.specs.Query.{is_future, is_past};

use mg_dates::Date;

/// A tick, and the time at which it happened.
#[derive(Clone, Copy, Debug, PartialEq, Eq)]
pub struct Moment {
    /// The number of ticks before this one.
    pub tick: u64,
    /// The time of the tick, if a date precedes it in the script.
    pub date: Option<Date>,
}

impl Moment {
    /// Returns whether the tick is known to have happened at or before a time.
    pub(crate) fn is_past(&self, time: Date) -> bool
        ensures value { result ≡ is_past false self.now time }
    {
        match self.date {
            Some(date) => date.millis <= time.millis,
            None => false,
        }
    }

    /// Returns whether the tick is known to have happened after a time.
    pub(crate) fn is_future(&self, time: Date) -> bool
        ensures value { result ≡ is_future false self.now time }
    {
        match self.date {
            Some(date) => time.millis < date.millis,
            None => false,
        }
    }
}
