use std::fmt::{self, Display, Formatter, Write};
use std::time::Duration;

/// The length of a tick, in microseconds.
const TICK_MICROS: u64 = 20_000;

/// A duration in microseconds, which is displayed in seconds.
#[derive(Clone, Copy, Debug, PartialEq, Eq)]
pub struct Seconds {
    micros: u64,
}

impl Seconds {
    pub fn of_micros(micros: u64) -> Self {
        Seconds { micros }
    }

    pub fn of(duration: Duration) -> Self {
        Seconds {
            micros: u64::try_from(duration.as_micros()).unwrap_or(u64::MAX),
        }
    }

    pub fn of_ticks(ticks: u64) -> Self {
        Seconds {
            micros: ticks.saturating_mul(TICK_MICROS),
        }
    }
}

impl Display for Seconds {
    fn fmt<W: Write>(&self, f: &mut Formatter<W>) -> fmt::Result {
        let seconds = self.micros / 1_000_000;
        let rest = self.micros % 1_000_000;
        write!(f, "{seconds}.{rest:06}")
    }
}
