ghost use Rattle.std.specs.Prelude.{ℕ, [], ◌∷◌, List, Option, None, MatchResult, IfErr, ⊤};
ghost use Rattle.std.specs.Duration.{as_nanos};
ghost use Rattle.std.specs.Io.KnownBytes.{Appends, Keeps};

use crate::clock_failed::ClockFailed;
use std::time::Duration;

/// A clock that returns the time since its start, in nanoseconds, and can wait.
pub trait Watch {
    // The readings so far, if they are known.
    ghost readings: { Self → Option (List ℕ) } = { λ _. None };

    // The waits so far, in nanoseconds, if they are known.
    ghost waits: { Self → Option (List ℕ) } = { λ _. None };

    // A property of the clock that holds if reading it failed.
    ghost Fails: { Self → Type 0 } = { λ _. ⊤ };

    /// Returns the nanoseconds since the clock's start.
    fn now(&mut self) -> Result<u64, ClockFailed>
        ensures reports { MatchResult result (λ t. Appends (readings self.old) (readings self.new) (t ∷ []))
            (λ failed. Keeps (readings self.old) (readings self.new)) }
        ensures waits { Keeps (waits self.old) (waits self.new) }
        ensures fails { IfErr result (λ failed. Fails self.new) };

    /// Waits for the given time. If the clock can detect messages, a message can end the wait earlier. Returns whether
    /// a message arrived.
    fn wait(&mut self, time: Duration) -> bool
        ensures waits { Appends (waits self.old) (waits self.new) (as_nanos time ∷ []) }
        ensures readings { Keeps (readings self.old) (readings self.new) };
}
