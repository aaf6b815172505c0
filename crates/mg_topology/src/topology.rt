ghost use Rattle.std.specs.Prelude.{◌≡◌, ℕ, ◌<◌, ◌↔◌, ◌∷◌, [], List, true, false, slice_index, if◌then◌else◌, ◌==◌, Any, IsTrue, IsFalse, IsErr, OnOk, OnErr};
ghost use Rattle.std.specs.List.{list_any};
ghost use Rattle.mg_topology.specs.Mask.{has_seat};
ghost use Rattle.mg_topology.specs.Triple.{overlaps, Overlaps};
ghost use Rattle.mg_topology.specs.aids.Word.{after_triple};

use crate::mask::{self, Mask, SEATS};
use crate::{Overlap, Triple};
use std::marker::Model;

/// Who hears whom among the seats of one context.
///
/// In contracts, a topology appears as the held seats and the rows, which are read through `holds`, `hears` and
/// `StandsFor`. The topology that [`Topology::new`] returns represents the empty list of edits, and each call adds its
/// edits to the lists that the topology represents. So every topology represents some list.
#[derive(Debug, Drop)]
pub struct Topology {
    held: Mask,
    rows: [Mask; SEATS],
}

impl Model for Topology {
    ghost use Rattle.mg_topology.specs.aids.Topology.{TopologyState};

    ghost Value = { TopologyState };

    ghost view = { λ t. record { held = t.held; rows = t.rows } };
}

impl Topology {
    ghost use Rattle.mg_topology.specs.Edits.{TopologyEdit, Enter, Leave, Apply, is_held, hears_in};
    ghost use Rattle.mg_topology.specs.aids.Edits.{apply_all};
    ghost use Rattle.mg_topology.specs.aids.Topology.{holds, hears, StandsFor};

    /// Returns the topology of a context without members.
    pub fn new() -> Self
        ensures { StandsFor result [] }
    {
        Topology {
            held: mask::EMPTY,
            rows: [mask::EMPTY; SEATS],
        }
    }

    /// Returns whether the seat is held. Seats at or above [`SEATS`] are never held.
    pub fn holds(&self, seat: usize) -> bool
        ensures kept { result ≡ holds self.now seat }
        ensures edits { (es : List TopologyEdit) → StandsFor self.now es → result ≡ is_held es seat }
    {
        seat < SEATS && mask::has_seat(self.held, seat)
    }

    /// Returns the seats that are held.
    pub fn held(&self) -> Mask
        ensures kept { (seat : ℕ) → has_seat result seat ≡ holds self.now seat }
        ensures edits { (es : List TopologyEdit) → StandsFor self.now es → (seat : ℕ) →
            has_seat result seat ≡ is_held es seat }
    {
        self.held
    }

    /// Adds a member in a free seat. The new member hears all others, and they hear the new member.
    pub fn enter(&mut self, seat: usize)
        requires below_limit { seat < SEATS }
        requires free { IsFalse (holds self.old seat) }
        ensures edits { (es : List TopologyEdit) → StandsFor self.old es →
            StandsFor self.new (Enter seat ∷ es) }
        ensures seats { (s : ℕ) →
            holds self.new s ≡ (if s == seat then true else holds self.old s) }
    {
        self.held = mask::with_seat(self.held, seat);
        unmute_seat(&mut self.rows, seat);
        self.rows[seat] = mask::FULL;
    }

    /// Removes the member in the seat. Doesn't change who hears whom among the others.
    pub fn leave(&mut self, seat: usize)
        requires held { IsTrue (holds self.old seat) }
        ensures edits { (es : List TopologyEdit) → StandsFor self.old es →
            StandsFor self.new (Leave seat ∷ es) }
        ensures seats { (s : ℕ) →
            holds self.new s ≡ (if s == seat then false else holds self.old s) }
    {
        self.held = mask::without_seat(self.held, seat);
    }

    /// Applies triples in order, so the last triple that mentions a pair wins.
    ///
    /// If the two sets of a Oneway triple share a seat, no triple is applied.
    pub fn apply(&mut self, triples: &[Triple]) -> Result<(), Overlap>
        ensures overlap { IsErr result ↔ Any Overlaps triples.now }
        ensures ok { OnOk result ((es : List TopologyEdit) → StandsFor self.old es →
            StandsFor self.new (apply_all triples.now es)) }
        ensures seats { (seat : ℕ) → holds self.new seat ≡ holds self.old seat }
        ensures err { OnErr result (self.new ≡ self.old) }
    {
        if any_overlaps(triples) {
            return Err(Overlap);
        }
        for triple in triples {
            self.apply_one(triple);
        }
        Ok(())
    }

    #[tactic(auto, using(crate::proofs::TopologyLemmas::apply_stands))]
    fn apply_one(&mut self, triple: &Triple)
        ensures edits { (es : List TopologyEdit) → StandsFor self.old es →
            StandsFor self.new (Apply triple.now ∷ es) }
        ensures held { self.new.held ≡ self.old.held }
    {
        apply_to_rows(&mut self.rows, triple);
    }

    /// Returns the seats of the members that the listener hears, or none if the listener's seat is not held.
    #[tactic(auto, using(crate::proofs::MaskLemmas::seat_rules))]
    pub fn talkers(&self, listener: usize) -> Mask
        ensures kept { (talker : ℕ) → has_seat result talker ≡ hears self.now talker listener }
        ensures edits { (es : List TopologyEdit) → StandsFor self.now es → (talker : ℕ) →
            has_seat result talker ≡ hears_in es talker listener }
    {
        if !self.holds(listener) {
            return mask::EMPTY;
        }
        mask::without_seat(mask::intersection(self.rows[listener], self.held), listener)
    }

    /// Returns whether `listener` hears `talker`: both seats are held, they differ, and the last word on the pair
    /// allows it.
    pub fn hears(&self, talker: usize, listener: usize) -> bool
        ensures kept { result ≡ hears self.now talker listener }
        ensures edits { (es : List TopologyEdit) → StandsFor self.now es →
            result ≡ hears_in es talker listener }
    {
        talker < SEATS && mask::has_seat(self.talkers(listener), talker)
    }
}

impl Default for Topology {
    ghost use Rattle.mg_topology.specs.aids.Topology.{StandsFor};

    ghost is_default = { λ topology. StandsFor topology [] };

    fn default() -> Self {
        Self::new()
    }
}

/// Returns whether any Oneway triple has two sets that share a seat.
fn any_overlaps(triples: &[Triple]) -> bool
    ensures { result ≡ list_any overlaps triples.now }
{
    triples.iter().any(|triple| triple.overlaps())
}

/// Adds the seat to each listener's row of talkers.
fn unmute_seat(rows: &mut [Mask; SEATS], seat: usize)
    requires { seat < SEATS }
    ensures { (talker listener : ℕ) → listener < SEATS →
        has_seat (slice_index rows.new listener) talker ≡
        (if talker == seat then true else has_seat (slice_index rows.old listener) talker) }
{
    for row in rows.iter_mut() {
        *row = mask::with_seat(*row, seat);
    }
}

/// Updates each listener's row with the triple.
fn apply_to_rows(rows: &mut [Mask; SEATS], triple: &Triple)
    ensures { (talker listener : ℕ) → listener < SEATS →
        has_seat (slice_index rows.new listener) talker ≡
        after_triple triple.now talker listener (has_seat (slice_index rows.old listener) talker) }
{
    for (listener, row) in rows.iter_mut().enumerate() {
        *row = triple.row_after(*row, listener);
    }
}
