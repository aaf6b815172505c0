#![tactic(auto, using(crate::proofs::SeatLemmas::seat_rules))]

ghost use Rattle.std.specs.Prelude.{◌≡◌, ℕ, ◌<◌, ◌||◌, if◌then◌else◌, ◌∷◌, [], List, true, false, ◌↔◌, Any, IsTrue, IsFalse, IsErr, IfOk, OnOk, OnErr};
ghost use Rattle.mg_words.specs.Limits.{context_limit};
ghost use Rattle.mg_topology.specs.Mask.{has_seat};
ghost use Rattle.mg_topology.specs.Triple.{Overlaps};
ghost use Rattle.mg_flow.specs.Place.{is_same_place, are_together};
ghost use Rattle.mg_flow.specs.aids.Place.{sibling_place};
ghost use Rattle.mg_flow.specs.aids.Place.{IsWithinLimits};

use crate::last_word::word_on;
use crate::place::Place;
use crate::room_flows::RoomFlows;
use mg_topology::mask::{self, Mask};
use mg_topology::{Overlap, Triple};
use mg_words::CONTEXT_LIMIT;
use std::alloc::{AllocError, Global};
use std::marker::Model;

/// Who hears whom in all rooms of a gateway, and the masks of each listener's talkers.
///
/// In contracts, the table appears as the list of rooms. Each room has its topology, the mask of the members that talk,
/// and the mask of the members that listen. Contracts describe the table in terms of `specs/aids/Table.antt`. The table
/// that [`FlowTable::new`] returns represents the empty list of edits, and each call adds its edits to the lists that
/// the table represents. So every table represents some list ([`each_table_represents_edits`]).
///
/// [`each_table_represents_edits`]: crate::theorems::each_table_represents_edits
#[derive(Debug, Drop)]
pub struct FlowTable {
    rooms: Vec<RoomFlows>,
}

impl Model for FlowTable {
    ghost use Rattle.std.specs.Prelude.{List};
    ghost use Rattle.mg_flow.specs.aids.Table.{RoomFlows};
    ghost use Rattle.mg_flow.specs.aids.Table.{IsFlowTable};

    ghost Value = { List RoomFlows };

    ghost view = { λ table. table.rooms.items };

    ghost invariant = { λ table. IsFlowTable table.rooms.items };
}

impl FlowTable {
    ghost use Rattle.mg_flow.specs.Edits.{FlowEdit, Enter, Leave, SetMode, is_held, hears_in, flows_in, is_silenced_in};
    ghost use Rattle.mg_flow.specs.aids.Edits.{apply_in_room};
    ghost use Rattle.mg_flow.specs.aids.Words.{are_at};
    ghost use Rattle.mg_flow.specs.aids.Table.{StandsFor, StandsForSome, KeepsOthers, SetsPlace, KeepsPlaces, holds, hears, hears_after, flows, is_silenced};

    /// Creates the table of a gateway whose rooms are all empty.
    ///
    /// Allocates the memory for all rooms; no other call allocates. Fails only if the allocation fails.
    pub fn new(alloc: Global) -> Result<Self, AllocError>
        ensures edits { IfOk result (λ table. StandsFor table []) }
    {
        let mut rooms = Vec::with_capacity(alloc, CONTEXT_LIMIT)?;
        for _ in 0..CONTEXT_LIMIT {
            rooms.push(RoomFlows::new())?;
        }
        Ok(FlowTable { rooms })
    }

    /// Returns whether the place is held. No place beyond the limits is held.
    pub fn holds(&self, place: Place) -> bool
        ensures kept { result ≡ holds self.now place }
        ensures edits { (es : List FlowEdit) → StandsFor self.now es → result ≡ is_held es place }
    {
        match self.rooms.get(usize::from(place.room)) {
            Some(room) => room.holds(usize::from(place.seat)),
            None => false,
        }
    }

    /// Returns the seats of the room that are held.
    pub fn held(&self, room: u8) -> Mask
        ensures kept { (seat : ℕ) →
            has_seat result seat ≡ holds self.now (record { room = room; seat = seat }) }
        ensures edits { (es : List FlowEdit) → StandsFor self.now es → (seat : ℕ) →
            has_seat result seat ≡ is_held es (record { room = room; seat = seat }) }
    {
        match self.rooms.get(usize::from(room)) {
            Some(room) => room.held(),
            None => mask::EMPTY,
        }
    }

    /// Returns whether `listener` hears `talker`: they are different members of the same room, and the last word on the
    /// pair allows it.
    pub fn hears(&self, talker: Place, listener: Place) -> bool
        ensures kept { result ≡ hears self.now talker listener }
        ensures edits { (es : List FlowEdit) → StandsFor self.now es →
            result ≡ hears_in es talker listener }
    {
        if talker.room != listener.room {
            return false;
        }
        match self.rooms.get(usize::from(talker.room)) {
            Some(room) => room.hears(usize::from(talker.seat), usize::from(listener.seat)),
            None => false,
        }
    }

    /// Returns the seats of the room's members whose speech flows to the listener at the place.
    pub fn open(&self, place: Place) -> &Mask
        requires { IsTrue (holds self.now place) }
        ensures kept { (seat : ℕ) →
            has_seat result.now seat ≡ flows self.now (sibling_place place seat) place }
        ensures edits { (es : List FlowEdit) → StandsFor self.now es → (seat : ℕ) →
            has_seat result.now seat ≡ flows_in es (sibling_place place seat) place }
        ensures held { (seat : ℕ) → IsTrue (has_seat result.now seat) →
            IsTrue (holds self.now (sibling_place place seat)) }
    {
        let room = &self.rooms[usize::from(place.room)];
        room.open(usize::from(place.seat))
    }

    /// Returns the seats of the room's talkers that are silenced for the listener at the place.
    ///
    /// It does not matter whether the member at the place listens.
    pub fn silenced(&self, place: Place) -> &Mask
        requires { IsTrue (holds self.now place) }
        ensures kept { (seat : ℕ) →
            has_seat result.now seat ≡ is_silenced self.now (sibling_place place seat) place }
        ensures edits { (es : List FlowEdit) → StandsFor self.now es → (seat : ℕ) →
            has_seat result.now seat ≡ is_silenced_in es (sibling_place place seat) place }
        ensures held { (seat : ℕ) → IsTrue (has_seat result.now seat) →
            IsTrue (holds self.now (sibling_place place seat)) }
    {
        let room = &self.rooms[usize::from(place.room)];
        room.silenced(usize::from(place.seat))
    }

    /// Adds a member in a free place. The new member hears all other members of the room, and they hear it.
    pub fn on_enter(&mut self, place: Place, talks: bool, listens: bool)
        requires within { IsWithinLimits place }
        requires free { IsFalse (holds self.old place) }
        ensures edits { (es : List FlowEdit) → StandsFor self.old es →
            StandsFor self.new (Enter place talks listens ∷ es) }
        ensures place { SetsPlace self.old self.new place true talks listens }
        ensures hears { (t l : Place) → hears self.new t l ≡
            (if is_same_place t place || is_same_place l place
            then are_together (holds self.new) t l
            else hears self.old t l) }
        ensures others { KeepsOthers self.old self.new place.room }
    {
        let room = &mut self.rooms[usize::from(place.room)];
        room.enter(usize::from(place.seat), talks, listens);
    }

    /// Removes the member at the place. Doesn't change who hears whom among the others.
    pub fn on_leave(&mut self, place: Place)
        requires { IsTrue (holds self.old place) }
        ensures edits { (es : List FlowEdit) → StandsFor self.old es →
            StandsFor self.new (Leave place ∷ es) }
        ensures place { SetsPlace self.old self.new place false false false }
        ensures hears { (t l : Place) → hears self.new t l ≡
            (if is_same_place t place || is_same_place l place then false else hears self.old t l) }
        ensures others { KeepsOthers self.old self.new place.room }
    {
        let room = &mut self.rooms[usize::from(place.room)];
        room.leave(usize::from(place.seat));
    }

    /// Changes the mode of the member at the place: whether it talks, and whether it listens.
    pub fn on_mode(&mut self, place: Place, talks: bool, listens: bool)
        requires { IsTrue (holds self.old place) }
        ensures edits { (es : List FlowEdit) → StandsFor self.old es →
            StandsFor self.new (SetMode place talks listens ∷ es) }
        ensures place { SetsPlace self.old self.new place true talks listens }
        ensures hears { (t l : Place) → hears self.new t l ≡ hears self.old t l }
        ensures others { KeepsOthers self.old self.new place.room }
    {
        let room = &mut self.rooms[usize::from(place.room)];
        room.set_mode(usize::from(place.seat), talks, listens);
    }

    /// Applies triples in the room, in order, so the last triple that mentions a pair wins.
    ///
    /// If the two sets of a Oneway triple share a seat, no triple is applied.
    pub fn on_triples(&mut self, room: u8, triples: &[Triple]) -> Result<(), Overlap>
        requires { room < context_limit }
        ensures overlap { IsErr result ↔ Any Overlaps triples.now }
        ensures ok { OnOk result ((es : List FlowEdit) → StandsFor self.old es →
            StandsFor self.new (apply_in_room room triples.now es)) }
        ensures places { KeepsPlaces self.old self.new }
        ensures hears { OnOk result ((t l : Place) → t.room ≡ room →
            IsTrue (are_together (holds self.old) t l) →
            hears self.new t l ≡ hears_after triples.now t.seat l.seat (hears self.old t l)) }
        ensures others { KeepsOthers self.old self.new room }
        ensures err { OnErr result (self.new ≡ self.old) }
    {
        let spoken_of = &mut self.rooms[usize::from(room)];
        spoken_of.apply(triples)
    }

    /// Sets the last word on two members of a room, in one direction: whether `listener` hears `talker`.
    ///
    /// Whether the talker hears the listener is unchanged.
    pub fn set_word(&mut self, talker: Place, listener: Place, is_heard: bool)
        requires talker { IsWithinLimits talker }
        requires listener { IsWithinLimits listener }
        requires together { IsTrue (are_together (holds self.old) talker listener) }
        ensures places { KeepsPlaces self.old self.new }
        ensures hears { (t l : Place) → IsTrue (are_together (holds self.old) t l) →
            hears self.new t l ≡ (if are_at talker listener t l then is_heard else hears self.old t l) }
        ensures others { KeepsOthers self.old self.new talker.room }
    {
        let back = self.hears(listener, talker);
        let from = usize::from(talker.seat);
        let to = usize::from(listener.seat);
        let word = word_on(from, to, is_heard, back);
        self.on_triples(talker.room, &[word]).unwrap();
    }

    /// Exposes an invariant to a proof: every table represents some list of edits. Has no effect.
    pub(crate) fn assert_invariant(&self)
        ensures { StandsForSome self.now }
    {
        let _rooms = &self.rooms;
    }
}
