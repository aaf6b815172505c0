ghost use Rattle.std.specs.Prelude.{◌≡◌, ◌≢◌, ◌^◌, ◌<◌, ◌≤◌, ◌+◌, ℕ, true, false, length, OnErr, OnOk};
ghost use Rattle.mg_clock.specs.Ticks.{clock_seen};
ghost use Rattle.mg_engine.specs.Config.{IsValidConfig};
ghost use Rattle.mg_ports.specs.Journaled.{ports_seen};
ghost use Rattle.mg_serve.specs.aids.Driving.{EndsByFault, RanByClock, StepTaken};
ghost use Rattle.mg_serve.specs.aids.Outside.{LeadsByTrace, outside};

use crate::command::Command;
use crate::peripherals::Peripherals;
use crate::server::Server;
use crate::setup::Setup;
use mg_clock::{Step, TickSchedule, Watch};
use mg_core::{DATAGRAM_LIMIT, RunFault};
use mg_lines::WriteFailed;

/// Drives a server with a clock: a poll and a tick every 20 ms, and polls when messages arrive in between, up to 20
/// before each tick.
#[derive(Drop)]
pub struct ClockDriver<'a, P: Peripherals> {
    pub server: Server<'a, P::Monitor>,
    pub schedule: TickSchedule,
}

impl<'a, P: Peripherals> ClockDriver<'a, P> {
    /// Creates a driver for a server, before the first tick. If a tick is more than `allowed` ticks late, ports on a
    /// network don't send its packets.
    pub fn new(server: Server<'a, P::Monitor>, allowed: u16) -> Self
        ensures server { result.server ≡ server.entry }
        ensures schedule { result.schedule ≡ record { ticks = 0; allowed = allowed; messages = 0 } }
    {
        ClockDriver {
            server,
            schedule: TickSchedule::new(allowed),
        }
    }

    /// Executes a step of the clock: a poll, and then the tick if one begins.
    fn take_step(
        &mut self,
        setup: &Setup<'_>,
        ports: &mut P::Ports,
        buffer: &mut [u8],
        step: Step,
        writer: &mut P::Output,
    ) -> Result<(), WriteFailed>
        requires sound { IsValidConfig setup.now.config }
        requires room { length buffer.old ≤ DATAGRAM_LIMIT }
        requires whole { self.old.server.printer.has_failed ≡ false }
        requires few { self.old.server.journal.lacking + 1 < 2 ^ 64 }
        ensures schedule { self.new.schedule ≡ self.old.schedule }
        ensures whole { OnOk result (self.new.server.printer.has_failed ≡ false) }
        ensures failed { OnErr result (self.new.server.printer.has_failed ≡ true) }
        ensures value { LeadsByTrace self.old.server.core.state self.new.server.core.state
            (outside (ports_seen (P.Ports.calls ports.old) (P.Ports.journal ports.old)) (P.Output.contents writer.old)
            self.old.server.printer self.old.server.journal)
            (outside (ports_seen (P.Ports.calls ports.new) (P.Ports.journal ports.new)) (P.Output.contents writer.new)
            self.new.server.printer self.new.server.journal)
            (StepTaken self.old.server.printer.form setup.now step result) }
        ensures few { self.new.server.journal.lacking ≤ self.old.server.journal.lacking + 1 }
    {
        self.server
            .take_command(setup, ports, buffer, Command::Poll, writer)?;
        let Step::Tick(timing) = step else {
            return Ok(());
        };
        let tick = Command::Tick(timing);
        self.server
            .take_command(setup, ports, buffer, tick, writer)?;
        Ok(())
    }

    /// Executes polls and ticks when the clock says that they are due, until the clock or printing fails.
    pub fn take_all<K: Watch>(
        &mut self,
        setup: &Setup<'_>,
        ports: &mut P::Ports,
        buffer: &mut [u8],
        watch: &mut K,
        writer: &mut P::Output,
    ) -> RunFault
        requires sound { IsValidConfig setup.now.config }
        requires room { length buffer.old ≤ DATAGRAM_LIMIT }
        requires whole { self.old.server.printer.has_failed ≡ false }
        requires start { self.old.server.journal.lacking ≡ 0 }
        ensures ends { EndsByFault result self.new.server.printer.has_failed }
        ensures started { result ≢ RunFault.BadConfig }
        ensures value { (allowed : ℕ) → self.old.schedule ≡ record { ticks = 0; allowed = allowed; messages = 0 } →
            LeadsByTrace self.old.server.core.state self.new.server.core.state
            (outside (ports_seen (P.Ports.calls ports.old) (P.Ports.journal ports.old)) (P.Output.contents writer.old)
            self.old.server.printer self.old.server.journal)
            (outside (ports_seen (P.Ports.calls ports.new) (P.Ports.journal ports.new)) (P.Output.contents writer.new)
            self.new.server.printer self.new.server.journal)
            (RanByClock self.old.server.printer.form setup.now allowed
            (clock_seen (K.readings watch.old) (K.waits watch.old))
            (clock_seen (K.readings watch.new) (K.waits watch.new)) (K.Fails watch.new) result) }
    {
        for _ in 0..u64::MAX {
            let Ok(step) = self.schedule.next_step(watch) else {
                return RunFault::Read;
            };
            let Ok(()) = self.take_step(setup, ports, buffer, step, writer) else {
                return RunFault::Write;
            };
        }
        RunFault::Read
    }
}
