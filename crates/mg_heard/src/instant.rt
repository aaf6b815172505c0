ghost use Rattle.std.specs.Prelude.{◌≡◌, ◌∷◌, [], None};
ghost use Rattle.std.specs.Option.{option_or};
ghost use Rattle.mg_heard.specs.Verdict.{gap_at, heard_at, is_within, verdict_of};
ghost use Rattle.mg_heard.specs.declared.entry.Entry.TheVariants as entries;

use crate::entry::Entry;
use crate::extent::Extent;
use crate::gap::Gap;
use crate::interval::Interval;
use crate::query::Query;
use crate::sink::Sink;
use crate::verdict::Verdict;
use mg_core::Stopped;
use mg_dates::Date;

/// A sink that finds out who could hear whom at a given time.
#[derive(Drop)]
pub struct Instant {
    pub query: Query,
    pub time: Date,
    /// The first interval that the query selects and that contains the time.
    pub heard: Option<Interval>,
    /// The first gap that contains the time.
    pub gap: Option<Gap>,
}

impl Instant {
    /// Creates a sink that looks for the intervals and gaps that contain a time.
    pub fn new(query: Query, time: Date) -> Self
        ensures value { result ≡ record { query = query; time = time; heard = None; gap = None } }
    {
        Instant {
            query,
            time,
            heard: None,
            gap: None,
        }
    }

    /// Returns the answer, given the time that the script covers.
    pub fn verdict(&self, extent: &Extent) -> Verdict
        ensures value { result ≡ verdict_of (is_within extent.now self.now.time) self.now.gap self.now.heard }
    {
        if self.gap.is_some() || !extent.covers(self.time) {
            return Verdict::Unknown;
        }
        match self.heard {
            Some(interval) => Verdict::CouldHear(interval),
            None => Verdict::CouldNotHear,
        }
    }

    /// Returns the interval if the query selects it and it contains the time, and `None` otherwise.
    fn heard_in(&self, interval: &Interval) -> Option<Interval>
        ensures value { result ≡ heard_at self.now.query self.now.time (entries.Interval interval.now ∷ []) }
    {
        if self.query.selects_at(interval, self.time) {
            Some(*interval)
        } else {
            None
        }
    }

    /// Returns the gap if it contains the time, and `None` otherwise.
    fn gap_in(&self, gap: &Gap) -> Option<Gap>
        ensures value { result ≡ gap_at self.now.time (entries.Gap gap.now ∷ []) }
    {
        if gap.contains(self.time) {
            Some(*gap)
        } else {
            None
        }
    }

    /// Stores an interval if it is the first that the query selects and that contains the time.
    fn take_interval(&mut self, interval: &Interval)
        ensures value { self.new ≡ record self.old {
          heard = option_or self.old.heard (heard_at self.old.query self.old.time (entries.Interval interval.now ∷ []));
        } }
    {
        self.heard = self.heard.or(self.heard_in(interval));
    }

    /// Stores a gap if it is the first that contains the time.
    fn take_gap(&mut self, gap: &Gap)
        ensures value { self.new ≡ record self.old {
          gap = option_or self.old.gap (gap_at self.old.time (entries.Gap gap.now ∷ []));
        } }
    {
        self.gap = self.gap.or(self.gap_in(gap));
    }
}

impl Sink for Instant {
    ghost use Rattle.mg_heard.specs.aids.Finding.{HasFound};

    ghost told = { HasFound };

    fn tell(&mut self, entry: &Entry) -> Result<(), Stopped> {
        match entry {
            Entry::Interval(interval) => {
                self.take_interval(interval);
                Ok(())
            }
            Entry::Gap(gap) => {
                self.take_gap(gap);
                Ok(())
            }
            Entry::Audible(_) => Ok(()),
        }
    }
}
