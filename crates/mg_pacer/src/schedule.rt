ghost use Rattle.std.specs.Prelude.{◌≡◌, ◌<◌, ◌≤◌};
ghost use Rattle.std.specs.Duration.{as_nanos};
ghost use Rattle.mg_pacer.specs.Pace.{Advances, Waits, start};

use mg_clock::{MAX_POLLS, steps_due, time_to_step};
use std::marker::Model;
use std::time::Duration;

/// The maximum number of ticks that are written at once after a delay: one second's worth. Older ticks are skipped.
const CATCH_UP: u64 = 50;

/// The progress of a run. A step is a poll. The last poll in every 20 ms is followed by a tick.
#[derive(Drop)]
pub struct Schedule {
    polls: u64,
    steps: u64,
    left: u64,
}

impl Model for Schedule {
    ghost use Rattle.mg_pacer.specs.Pace.{Pace};

    ghost Value = { Pace };

    ghost use Rattle.mg_pacer.specs.aids.View.{pace_of, IsWithinBounds};

    ghost view = { pace_of };

    ghost invariant = { IsWithinBounds };
}

impl Schedule {
    /// Creates a schedule with this many polls per 20 ms. No step has been written yet.
    pub fn new(polls: u16) -> Self
        requires some { 0 < polls }
        requires few { polls ≤ MAX_POLLS }
        ensures value { result ≡ start polls }
    {
        Schedule {
            polls: u64::from(polls),
            steps: 0,
            left: 0,
        }
    }

    /// Returns the number of polls per 20 ms.
    pub fn polls(&self) -> u64
        ensures value { result ≡ self.now.polls }
        ensures some { 0 < result }
        ensures few { result ≤ MAX_POLLS }
    {
        self.polls
    }

    /// Returns the number of steps that were written.
    pub fn steps(&self) -> u64
        ensures value { result ≡ self.now.steps }
        ensures small { result ≤ 922337203685478 }
    {
        self.steps
    }

    /// Returns the number of ticks that were skipped.
    pub fn left(&self) -> u64
        ensures value { result ≡ self.now.left }
    {
        self.left
    }

    /// Advances to a reading of the clock, in nanoseconds since the start.
    ///
    /// The steps that are due at the time of the reading count as written or as skipped; only whole ticks are skipped.
    pub fn advance(&mut self, now: u64)
        ensures value { Advances self.old now self.new }
    {
        let behind = steps_due(self.polls, now).saturating_sub(self.steps + self.polls * self.left);
        let left = behind
            .saturating_sub(CATCH_UP * self.polls)
            .div_ceil(self.polls);
        self.steps += behind - left * self.polls;
        self.left += left;
    }

    /// Returns the time from this reading of the clock until the next step is due.
    pub fn wait(&self, now: u64) -> Duration
        ensures value { Waits self.now now (as_nanos result) }
    {
        time_to_step(self.polls, self.steps + self.polls * self.left, now)
    }
}
