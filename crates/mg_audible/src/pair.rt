ghost use Rattle.std.specs.Prelude.{◌≡◌, ◌≤◌, length, OnOk};
ghost use Rattle.mg_rooms.specs.Consistent.{IsConsistent};
ghost use Rattle.mg_core.specs.World.{World, world_after_tick};
ghost use Rattle.mg_core.specs.declared.event.Event.TheVariants as events;
ghost use Rattle.mg_audible.specs.Audible.{audible_flows};
ghost use Rattle.mg_audible.specs.aids.Keeping.{LeadsBoth, StandForBoth};

use crate::differences::{AudibleFlows, audible_flows};
use crate::ports::is_port_of;
use mg_core::{Core, NoMemory, Peer, TERMINATION_LIMIT};
use std::alloc::Global;

/// Two gateways with the same events, except that the second gateway does not receive the talker's speech.
#[derive(Drop)]
pub(crate) struct Pair {
    /// The talker's number.
    pub(crate) talker: u32,
    pub(crate) whole: Core,
    pub(crate) without: Core,
}

impl Pair {
    /// Handles an RTP datagram. If it is speech of the talker, only the first gateway receives it.
    pub(crate) fn media(&mut self, port: u16, source: Peer, bytes: &[u8])
        ensures value { LeadsBoth self.old.talker (events.Media port source bytes.now) self.old.whole.state
            self.old.without.state self.new.whole.state self.new.without.state }
        ensures talker { self.new.talker ≡ self.old.talker }
    {
        let is_speech = is_port_of(&self.whole, self.talker, port);
        let _ = self.whole.media(port, source, bytes);
        if is_speech {
            return;
        }
        let _ = self.without.media(port, source, bytes);
    }

    /// Handles a control datagram on both gateways. If memory runs out, nothing changes.
    pub(crate) fn control(
        &mut self,
        alloc: Global,
        source: Peer,
        bytes: &[u8],
    ) -> Result<(), NoMemory>
        ensures value { OnOk result (LeadsBoth self.old.talker (events.Control source bytes.now) self.old.whole.state
            self.old.without.state self.new.whole.state self.new.without.state) }
        ensures talker { self.new.talker ≡ self.old.talker }
    {
        let parsed = Core::read(alloc, bytes)?;
        let _ = self.whole.run(source, bytes, &parsed);
        let _ = self.without.run(source, bytes, &parsed);
        Ok(())
    }

    /// Runs a tick on both gateways. Returns the audible flows of the tick.
    pub(crate) fn tick(&mut self) -> AudibleFlows
        ensures few { length result.items ≤ TERMINATION_LIMIT }
        ensures consistent { IsConsistent self.new.whole.state.engine.rooms }
        ensures value { (v w : World) → StandForBoth self.old.whole.state self.old.without.state v w →
            (result.items ≡ audible_flows self.old.talker v w) × StandForBoth self.new.whole.state
            self.new.without.state (world_after_tick v) (world_after_tick w) }
        ensures talker { self.new.talker ≡ self.old.talker }
    {
        self.whole.tick();
        self.without.tick();
        audible_flows(self.talker, &self.whole, &self.without)
    }
}
