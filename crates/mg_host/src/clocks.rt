ghost use Rattle.std.specs.Prelude.{◌≡◌, None, [], IfOk};
ghost use Rattle.mg_clock.specs.Ticks.{ClockSeen, clock_seen};
ghost use Rattle.mg_host.specs.HostCalls.{IsLogged};

use crate::tells::Tells;
use mg_clock::Watch;
use std::io;

/// A host with a monotonic clock.
pub trait Clocks: Tells {
    type Watch: Watch + Drop;

    /// The readings and waits of the clock that was stopped last, if they are known.
    ghost stopped: { Self → ClockSeen } = { λ _. clock_seen None None };

    /// Starts the clock. A datagram at socket 0, which must be bound, ends the clock's waits.
    fn watch(&mut self) -> io::Result<Self::Watch>
        ensures same { Self.calls self.new ≡ Self.calls self.old }
        ensures unread { IfOk result (λ watch. IsLogged (Self.calls self.new) (Self.Watch.readings watch) []) };

    /// Stops the clock.
    fn stop(&mut self, watch: Self::Watch)
        ensures same { Self.calls self.new ≡ Self.calls self.old }
        ensures stopped { stopped self.new ≡ clock_seen (Self.Watch.readings watch) (Self.Watch.waits watch) };
}
