use crate::clock_failed::ClockFailed;
use crate::watch::Watch;
use std::thread;
use std::time::{Clock, Duration, Instant};

/// The system's monotonic clock. Its time starts at its first reading, or when it is created. This clock can't detect
/// messages.
#[derive(Drop)]
pub struct SystemWatch<'a, C: Clock> {
    clock: &'a C,
    start: Option<Instant>,
}

impl<'a, C: Clock> SystemWatch<'a, C> {
    /// Creates a clock that starts at its first reading.
    pub fn new(clock: &'a C) -> Self {
        SystemWatch { clock, start: None }
    }

    /// Creates a clock that starts now.
    pub fn start_now(clock: &'a C) -> Result<Self, ClockFailed> {
        match Instant::now(clock) {
            Ok(start) => Ok(SystemWatch {
                clock,
                start: Some(start),
            }),
            Err(_) => Err(ClockFailed),
        }
    }
}

impl<'a, C: Clock> Watch for SystemWatch<'a, C> {
    fn now(&mut self) -> Result<u64, ClockFailed> {
        let time = match &self.start {
            Some(start) => start.elapsed(self.clock),
            None => Instant::now(self.clock).map(|start| {
                self.start = Some(start);
                Duration::ZERO
            }),
        };
        match time {
            Ok(time) => Ok(u64::try_from(time.as_nanos()).unwrap_or(u64::MAX)),
            Err(_) => Err(ClockFailed),
        }
    }

    fn wait(&mut self, time: Duration) -> bool {
        thread::sleep(self.clock, time);
        false
    }
}
