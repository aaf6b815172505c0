use crate::entry::Entry;
use crate::extent::Extent;

/// The range of ticks that a page's timeline covers. No contract specifies it.
#[derive(Clone, Copy, Debug, PartialEq, Eq)]
pub struct Scale {
    /// The first tick of the intervals so far, or 2^64 - 1 if there are none.
    pub first: u64,
    /// The last end of the intervals so far: 0 if there are none, and 2^64 - 1 if an interval has no end.
    pub end: u64,
}

impl Scale {
    /// Creates a scale that includes no interval.
    pub(crate) fn new() -> Self {
        Scale {
            first: u64::MAX,
            end: 0,
        }
    }

    /// Extends the scale to include an interval. A gap doesn't change the scale.
    pub(crate) fn include(&mut self, entry: &Entry) {
        match entry {
            Entry::Interval(interval) | Entry::Audible(interval) => {
                let end = match interval.end {
                    Some(end) => end.tick,
                    None => u64::MAX,
                };
                self.first = self.first.min(interval.first.tick);
                self.end = self.end.max(end);
            }
            Entry::Gap(_) => {}
        }
    }

    /// Returns the scale limited to the ticks of a script, or all ticks of the script if there is no interval.
    pub(crate) fn within(self, extent: &Extent) -> Self {
        let end = extent.end.tick;
        if self.end == 0 {
            return Scale { first: 0, end };
        }
        Scale {
            first: self.first.min(end),
            end: self.end.min(end),
        }
    }
}
