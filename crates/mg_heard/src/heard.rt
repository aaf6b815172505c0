ghost use Rattle.std.specs.Prelude.{◌≡◌, ◌+◌, ◌∷◌, [], false, length, IfOk, List, OnOk};
ghost use Rattle.mg_core.specs.Follow.{HasRun};
ghost use Rattle.mg_core.specs.Note.{Note};
ghost use Rattle.mg_core.specs.World.{World};
ghost use Rattle.mg_core.specs.aids.Stands.{StandsFor};
ghost use Rattle.mg_heard.specs.Intervals.{newest};
ghost use Rattle.mg_heard.specs.OpenFlows.{open_flows};
ghost use Rattle.mg_heard.specs.Times.{tick_count};
ghost use Rattle.mg_heard.specs.Told.{TellsAll};
ghost use Rattle.mg_heard.specs.aids.Keeping.{KeepsHeard, TellsTimed};
ghost use Rattle.mg_heard.specs.aids.Timing.{IsClock};
ghost use Rattle.mg_heard.specs.declared.open_flow.OpenFlow.{OpenFlow};

use crate::changes::only_control_changes_flows;
use crate::clock::Clock;
use crate::clock_fault::ClockFault;
use crate::open_rows::OpenRows;
use crate::rows::Rows;
use crate::sink::Sink;
use crate::telling::{tell_gap, tell_rows};
use crate::theorems::intervals_tell_the_flow;
use mg_core::{Core, Event, Follower, Stopped};
use std::alloc::{AllocError, Global};

/// Follows who can hear whom, and reports each interval to a sink when the interval or the script ends.
#[derive(Drop)]
pub(crate) struct Heard<S: Sink> {
    pub(crate) sink: S,
    pub(crate) clock: Clock,
    /// The reason why the follower stopped, or `None` if it has not stopped or if the sink made it stop.
    pub(crate) fault: Option<ClockFault>,
    /// Whether the open flows may have changed since the stored intervals were last compared with them.
    pub(crate) is_changed: bool,
    pub(crate) open: OpenRows,
    /// The intervals that ended with the last change.
    ended: Rows,
}

impl<S: Sink> Heard<S> {
    /// Creates a follower at the beginning of a script. No other call allocates.
    pub(crate) fn new(alloc: Global, sink: S) -> Result<Self, AllocError>
    where
        S: Drop,
        ensures start { (base : World) → S.told sink sink [] → IfOk result (λ h.
            KeepsHeard base [] h.clock h.is_changed h.open (S.told h.sink h.sink)) }
        ensures sink { IfOk result (λ h. h.sink ≡ sink) }
    {
        Ok(Heard {
            sink,
            clock: Clock::new(),
            fault: None,
            is_changed: true,
            open: OpenRows::new(alloc)?,
            ended: Rows::new(alloc)?,
        })
    }

    /// Stores the reason why the follower stops.
    fn stop(&mut self, fault: ClockFault) -> Stopped {
        self.fault = Some(fault);
        Stopped
    }

    /// Compares the stored intervals with the flows that are open in a core, if those flows may have changed.
    fn update(&mut self, core: &Core) -> Result<(), Stopped>
        ensures value { (w : World) (past : List (List OpenFlow)) (older : List Note) (start : S) →
            StandsFor core.now.state w → IsClock older self.old.clock → self.old.clock.ticks ≡ length past →
            (self.old.is_changed ≡ false → open_flows w.gateway ≡ newest past) →
            TellsTimed older (tick_count older) past self.old.open (S.told start self.old.sink) → OnOk result
            (TellsTimed older (tick_count older + 1) (open_flows w.gateway ∷ past) self.new.open
            (S.told start self.new.sink)) }
        ensures clock { self.new.clock ≡ self.old.clock }
    {
        if self.is_changed {
            return self.tell_changes(core);
        }
        Ok(())
    }

    /// Compares the stored intervals with the flows that are open in a core, and reports the intervals that have ended.
    fn tell_changes(&mut self, core: &Core) -> Result<(), Stopped>
        ensures value { (w : World) (past : List (List OpenFlow)) (older : List Note) (start : S) →
            StandsFor core.now.state w → IsClock older self.old.clock → self.old.clock.ticks ≡ length past →
            TellsTimed older (tick_count older) past self.old.open (S.told start self.old.sink) → OnOk result
            (TellsTimed older (tick_count older + 1) (open_flows w.gateway ∷ past) self.new.open
            (S.told start self.new.sink)) }
        ensures clock { self.new.clock ≡ self.old.clock }
    {
        let now = self.clock.now();
        self.open.advance(&mut self.ended, core, now);
        self.is_changed = false;
        tell_rows(self.ended.as_slice(), Some(now), &mut self.sink)
    }

    /// At the end of a script, reports the intervals that end there and those that have no end. `core` is the gateway's
    /// state at that point.
    pub(crate) fn finish(&mut self, core: &Core) -> Result<(), Stopped>
        ensures value { (start : S) (base : World) (notes : List Note) → HasRun base notes core.now.state →
            KeepsHeard base notes self.old.clock self.old.is_changed self.old.open (S.told start self.old.sink) →
            OnOk result (TellsAll base notes (λ _. S.told start self.new.sink)) }
        ensures clock { self.new.clock ≡ self.old.clock }
    {
        mg_core::theorems::outcomes_are_unique();
        intervals_tell_the_flow();
        self.update(core)?;
        tell_rows(self.open.as_slice(), None, &mut self.sink)
    }
}

impl<S: Sink> Follower for Heard<S> {
    ghost use Rattle.std.specs.Prelude.{true};
    ghost use Rattle.mg_heard.specs.aids.Keeping.{KeepsHeard};

    ghost may_stop = { true };

    ghost follows = { λ start h base notes.
        KeepsHeard base notes h.clock h.is_changed h.open (S.told start.sink h.sink) };

    fn comment(&mut self, number: u64, line: &[u8]) -> Result<(), Stopped> {
        match self.clock.pass_comment(number, line) {
            Ok(None) => Ok(()),
            Ok(Some(gap)) => tell_gap(gap, &mut self.sink),
            Err(fault) => Err(self.stop(fault)),
        }
    }

    fn datagram(&mut self, event: &Event, _core: &Core) -> Result<(), Stopped> {
        mg_core::theorems::outcomes_are_unique();
        only_control_changes_flows();
        if let Event::Control(_, _) = event {
            self.is_changed = true;
        }
        Ok(())
    }

    fn ticks(&mut self, core: &Core, count: u64) -> Result<(), Stopped> {
        mg_core::theorems::outcomes_are_unique();
        only_control_changes_flows();
        if count == 0 {
            return Ok(());
        }
        self.update(core)?;
        match self.clock.pass_ticks(count) {
            Ok(_) => Ok(()),
            Err(fault) => Err(self.stop(fault)),
        }
    }
}
