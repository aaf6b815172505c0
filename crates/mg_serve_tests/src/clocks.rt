//! Clocks for tests.

use mg_clock::{ClockFailed, Watch};
use std::cell::Cell;
use std::io;
use std::time::{Clock, Duration};

/// A clock that reads 0, then 20 ms, then 80 ms three times (two ticks late), and then fails. Its waits take no time.
#[derive(Drop)]
pub struct LateClock {
    readings: usize,
}

impl LateClock {
    pub fn new() -> Self {
        LateClock { readings: 0 }
    }
}

impl Watch for LateClock {
    fn now(&mut self) -> Result<u64, ClockFailed> {
        self.readings = self.readings.saturating_add(1);
        match self.readings {
            1 => Ok(0),
            2 => Ok(20_000_000),
            3..=5 => Ok(80_000_000),
            _ => Err(ClockFailed),
        }
    }

    fn wait(&mut self, _time: Duration) -> bool {
        false
    }
}

/// A clock that advances by the same time, in microseconds, at each reading. A clock without a step can't be read.
#[derive(Drop)]
pub struct SteadyClock {
    now: Cell<u64>,
    step: Option<u64>,
}

impl SteadyClock {
    pub fn new(step: Option<u64>) -> Self {
        SteadyClock {
            now: Cell::new(0),
            step,
        }
    }
}

impl Clock for SteadyClock {
    fn monotonic(&self) -> io::Result<Duration> {
        let Some(step) = self.step else {
            return Err(io::Error::from(io::ErrorKind::Other));
        };
        let now = self.now.get();
        self.now.set(now.saturating_add(step));
        Ok(Duration::from_micros(now))
    }

    fn since_1970(&self) -> io::Result<Duration> {
        Ok(Duration::ZERO)
    }
}
