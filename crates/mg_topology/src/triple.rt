ghost use Rattle.std.specs.Prelude.{◌≡◌, ℕ, ◌<◌, ◌&&◌, ◌↔◌, IsTrue};
ghost use Rattle.mg_topology.specs.Mask.{has_seat};

use crate::Association;
use crate::mask::{self, Mask, SEATS};

/// One triple of a topology descriptor: two sets of seats, and which of them hears the other (RFC 3525, section
/// 7.1.18).
///
/// A triple mentions every pair with one seat in each set. A wildcard is the set of all seats that it matches. A seat
/// that nobody holds has no effect.
#[derive(Clone, Copy, Debug, PartialEq, Eq, Hash)]
pub struct Triple {
    /// The first term of the triple: the talkers of a Oneway triple.
    pub first: Mask,
    /// The second term: the listeners of a Oneway triple.
    pub second: Mask,
    /// Which of the two sets hears the other.
    pub association: Association,
}

/// The default is a triple that doesn't mention any pair.
impl Default for Triple {
    ghost use Rattle.std.specs.Prelude.{◌≡◌};
    ghost use Rattle.mg_topology.specs.aids.Word.{empty_triple};

    ghost is_default = { λ triple. triple ≡ empty_triple };

    fn default() -> Self {
        Triple {
            first: mask::EMPTY,
            second: mask::EMPTY,
            association: Association::Bothway,
        }
    }
}

impl Triple {
    ghost use Rattle.mg_topology.specs.Triple.{overlaps, Overlaps};
    ghost use Rattle.mg_topology.specs.aids.Word.{after_triple};

    /// Returns whether this is a Oneway triple whose two sets share a seat. A topology rejects such a triple.
    pub fn overlaps(&self) -> bool
        ensures value { result ≡ overlaps self.now }
        ensures common { IsTrue (overlaps self.now) ↔ Overlaps self.now }
    {
        match self.association {
            Association::Oneway => !mask::is_disjoint(self.first, self.second),
            Association::Isolate | Association::Bothway => false,
        }
    }

    /// Returns the listener's row of talkers after the triple, given the row before it.
    pub(crate) fn row_after(&self, row: Mask, listener: usize) -> Mask
        requires { listener < SEATS }
        ensures { (talker : ℕ) →
            has_seat result talker ≡ after_triple self.now talker listener (has_seat row talker) }
    {
        let forward = across(self.second, listener, self.first);
        let backward = across(self.first, listener, self.second);
        match self.association {
            Association::Isolate => mask::difference(row, mask::union(forward, backward)),
            Association::Oneway => mask::union(mask::difference(row, backward), forward),
            Association::Bothway => mask::union(row, mask::union(forward, backward)),
        }
    }
}

/// Returns `other` if the seat is in `one`, and the empty set otherwise.
#[tactic(auto, using(crate::proofs::MaskLemmas::seat_rules))]
fn across(one: Mask, seat: usize, other: Mask) -> Mask
    requires { seat < SEATS }
    ensures { (s : ℕ) → has_seat result s ≡ (has_seat one seat && has_seat other s) }
{
    if mask::has_seat(one, seat) {
        other
    } else {
        mask::EMPTY
    }
}
