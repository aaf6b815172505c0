/// The minimum number of ticks between two lines about stale messages: a second's worth.
const TOGETHER: u64 = 50;

/// Detects messages that don't pass the fence.
#[derive(Clone, Copy, Debug, PartialEq, Eq)]
pub struct StaleWatch {
    /// The number of stale messages that have been reported.
    reported: u64,
    /// The tick at which a line may be printed again.
    next: u64,
}

impl StaleWatch {
    pub fn new() -> Self {
        StaleWatch {
            reported: 0,
            next: 0,
        }
    }

    /// Records the number of stale messages so far, after this many ticks. Returns how many messages to report, or
    /// `None` if nothing is to be reported.
    pub fn take(&mut self, stale: u64, ticks: u64) -> Option<u64> {
        let more = stale.saturating_sub(self.reported);
        if more == 0 || ticks < self.next {
            return None;
        }
        self.reported = stale;
        self.next = ticks.saturating_add(TOGETHER);
        Some(more)
    }
}
