ghost use Rattle.std.specs.Prelude.{◌≡◌, ℕ, ◌<◌, ◌∷◌, List, true, false, ◌↔◌, Any, IsTrue, IsFalse, IsErr, OnOk, OnErr};
ghost use Rattle.mg_topology.specs.Mask.{seat_limit, has_seat};
ghost use Rattle.mg_topology.specs.Triple.{Overlaps};
ghost use Rattle.mg_topology.specs.Edits.{TopologyEdit, Enter, Leave};
ghost use Rattle.mg_topology.specs.aids.Edits.{apply_all};
ghost use Rattle.mg_topology.specs.aids.Topology.{holds, hears, StandsFor};
ghost use Rattle.mg_flow.specs.aids.RoomFlows.{flows_to, is_blocked_for};

use crate::masks::Masks;
use mg_topology::mask::{self, Mask};
use mg_topology::{Overlap, Topology, Triple};
use std::marker::Model;

/// The state of one room.
///
/// In contracts, the state appears as the topology, the mask of the members that talk, and the mask of the members that
/// listen. These determine each listener's masks.
#[derive(Debug, Drop)]
pub(crate) struct RoomFlows {
    topology: Topology,
    talks: Mask,
    listens: Mask,
    masks: Masks,
}

impl Model for RoomFlows {
    ghost use Rattle.mg_flow.specs.aids.Table.{RoomFlows as RoomState};
    ghost use Rattle.mg_flow.specs.aids.RoomFlows.{AreMasks};

    ghost Value = { RoomState };

    ghost view = { λ r. record { topology = r.topology; talks = r.talks; listens = r.listens } };

    ghost invariant = { λ r.
        let kept : RoomState = record { topology = r.topology; talks = r.talks; listens = r.listens } in
        AreMasks kept r.masks.open r.masks.silenced };
}

impl RoomFlows {
    ghost use Rattle.mg_flow.specs.aids.RoomFlows.{IsVacant, SetsSeat};

    /// Returns a room without members.
    #[tactic(auto, using(crate::proofs::SeatLemmas::seat_rules))]
    pub(crate) fn new() -> Self
        ensures { IsVacant result }
    {
        let topology = Topology::new();
        let masks = Masks::of(&topology, mask::EMPTY, mask::EMPTY);
        RoomFlows {
            topology,
            talks: mask::EMPTY,
            listens: mask::EMPTY,
            masks,
        }
    }

    pub(crate) fn holds(&self, seat: usize) -> bool
        ensures { result ≡ holds self.now.topology seat }
    {
        self.topology.holds(seat)
    }

    pub(crate) fn held(&self) -> Mask
        ensures { (seat : ℕ) → has_seat result seat ≡ holds self.now.topology seat }
    {
        self.topology.held()
    }

    pub(crate) fn hears(&self, talker: usize, listener: usize) -> bool
        ensures { result ≡ hears self.now.topology talker listener }
    {
        self.topology.hears(talker, listener)
    }

    /// Returns the talkers whose speech flows to the listener.
    pub(crate) fn open(&self, listener: usize) -> &Mask
        requires { listener < seat_limit }
        ensures { (talker : ℕ) → has_seat result.now talker ≡
            flows_to self.now.topology self.now.talks self.now.listens talker listener }
    {
        &self.masks.open[listener]
    }

    /// Returns the talkers that the last word mutes for the listener.
    pub(crate) fn silenced(&self, listener: usize) -> &Mask
        requires { listener < seat_limit }
        ensures { (talker : ℕ) → has_seat result.now talker ≡
            is_blocked_for self.now.topology self.now.talks talker listener }
    {
        &self.masks.silenced[listener]
    }

    /// Adds a member in a free seat.
    pub(crate) fn enter(&mut self, seat: usize, talks: bool, listens: bool)
        requires below_limit { seat < seat_limit }
        requires free { IsFalse (holds self.old.topology seat) }
        ensures edits { (es : List TopologyEdit) → StandsFor self.old.topology es →
            StandsFor self.new.topology (Enter seat ∷ es) }
        ensures seat { SetsSeat self.old self.new seat true talks listens }
    {
        self.topology.enter(seat);
        self.talks = mask::set_seat(self.talks, seat, talks);
        self.listens = mask::set_seat(self.listens, seat, listens);
        self.masks = Masks::of(&self.topology, self.talks, self.listens);
    }

    /// Removes the member in the seat.
    pub(crate) fn leave(&mut self, seat: usize)
        requires { IsTrue (holds self.old.topology seat) }
        ensures edits { (es : List TopologyEdit) → StandsFor self.old.topology es →
            StandsFor self.new.topology (Leave seat ∷ es) }
        ensures seat { SetsSeat self.old self.new seat false false false }
    {
        self.topology.leave(seat);
        self.talks = mask::without_seat(self.talks, seat);
        self.listens = mask::without_seat(self.listens, seat);
        self.masks = Masks::of(&self.topology, self.talks, self.listens);
    }

    /// Changes the mode of the member in the seat.
    pub(crate) fn set_mode(&mut self, seat: usize, does_talk: bool, does_listen: bool)
        requires { IsTrue (holds self.old.topology seat) }
        ensures topology { self.new.topology ≡ self.old.topology }
        ensures seat { SetsSeat self.old self.new seat true does_talk does_listen }
    {
        self.talks = mask::set_seat(self.talks, seat, does_talk);
        self.listens = mask::set_seat(self.listens, seat, does_listen);
        self.masks = Masks::of(&self.topology, self.talks, self.listens);
    }

    /// Applies all triples in order, or none of them.
    pub(crate) fn apply(&mut self, triples: &[Triple]) -> Result<(), Overlap>
        ensures overlap { IsErr result ↔ Any Overlaps triples.now }
        ensures ok { OnOk result ((es : List TopologyEdit) → StandsFor self.old.topology es →
            StandsFor self.new.topology (apply_all triples.now es)) }
        ensures seats { (seat : ℕ) → holds self.new.topology seat ≡ holds self.old.topology seat }
        ensures talks { self.new.talks ≡ self.old.talks }
        ensures listens { self.new.listens ≡ self.old.listens }
        ensures err { OnErr result (self.new ≡ self.old) }
    {
        self.topology.apply(triples)?;
        self.masks = Masks::of(&self.topology, self.talks, self.listens);
        Ok(())
    }
}
