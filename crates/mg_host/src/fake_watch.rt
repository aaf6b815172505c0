ghost use Rattle.std.specs.Prelude.{◌≡◌, [], Some};

use mg_clock::{ClockFailed, Watch};
use std::alloc::Global;
use std::time::Duration;

/// A clock for tests. Each reading is a millisecond later than the previous reading, not counting the waits between
/// them. No message arrives. The readings are kept. If there is no memory for a reading, the clock can't be read.
#[derive(Drop)]
pub struct FakeWatch {
    now: u64,
    readings: Vec<u64>,
}

impl FakeWatch {
    pub(crate) fn new(alloc: Global) -> Self
        ensures unread { result.readings.items ≡ [] }
    {
        FakeWatch {
            now: 0,
            readings: Vec::new(alloc),
        }
    }
}

impl Watch for FakeWatch {
    ghost readings = { λ w. Some w.readings.items };

    fn now(&mut self) -> Result<u64, ClockFailed> {
        let now = self.now.saturating_add(1_000_000);
        if self.readings.push(now).is_err() {
            return Err(ClockFailed);
        }
        self.now = now;
        Ok(now)
    }

    fn wait(&mut self, time: Duration) -> bool {
        let time = u64::try_from(time.as_nanos()).unwrap_or(u64::MAX);
        self.now = self.now.saturating_add(time);
        false
    }
}
