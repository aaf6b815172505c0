use crate::seconds::Seconds;
use std::io::{self, Write};
use std::time::Duration;

/// The upper limits of the buckets, in microseconds, and the same limits as text in seconds, for Prometheus.
const BUCKETS: [(u64, &str); 9] = [
    (500, "0.0005"),
    (1_000, "0.001"),
    (2_000, "0.002"),
    (5_000, "0.005"),
    (10_000, "0.01"),
    (20_000, "0.02"),
    (50_000, "0.05"),
    (100_000, "0.1"),
    (500_000, "0.5"),
];

/// A histogram of delays.
#[derive(Clone, Copy, Debug, PartialEq, Eq)]
pub struct Delays {
    /// The number of delays within each limit.
    within: [u64; BUCKETS.len()],
    count: u64,
    micros: u64,
}

impl Delays {
    pub fn new() -> Self {
        Delays {
            within: [0; BUCKETS.len()],
            count: 0,
            micros: 0,
        }
    }

    /// Counts a delay.
    pub fn count(&mut self, delay: Duration) {
        let micros = u64::try_from(delay.as_micros()).unwrap_or(u64::MAX);
        for (within, (limit, _)) in self.within.iter_mut().zip(BUCKETS) {
            if micros <= limit {
                *within = within.saturating_add(1);
            }
        }
        self.count = self.count.saturating_add(1);
        self.micros = self.micros.saturating_add(micros);
    }

    /// Writes the samples of this histogram. Each sample has these labels, which are passed without braces.
    pub fn write<W: Write>(&self, name: &str, labels: &str, writer: &mut W) -> io::Result<()> {
        for (within, (_, limit)) in self.within.iter().zip(BUCKETS) {
            writeln!(
                writer,
                "lobbysorrel_{name}_bucket{{{labels},le=\"{limit}\"}} {within}"
            )?;
        }
        let count = self.count;
        let sum = Seconds::of_micros(self.micros);
        writeln!(
            writer,
            "lobbysorrel_{name}_bucket{{{labels},le=\"+Inf\"}} {count}"
        )?;
        writeln!(writer, "lobbysorrel_{name}_sum{{{labels}}} {sum}")?;
        writeln!(writer, "lobbysorrel_{name}_count{{{labels}}} {count}")
    }
}
