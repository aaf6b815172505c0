ghost use Rattle.std.specs.Prelude.{◌≡◌, ◌<◌, ◌+◌, ◌*◌, IfOk, replicate, slice_set};
ghost use Rattle.mg_flow.specs.aids.Place.{IsWithinLimits};
ghost use Rattle.mg_engine.specs.aids.Seating.{slot_at, index_of, place_count};

use mg_flow::Place;
use mg_topology::SEATS;
use mg_words::CONTEXT_LIMIT;
use std::alloc::{AllocError, Global};
use std::marker::Model;

/// The slot of the member at each place. The slot of an empty place has no meaning.
#[derive(Drop)]
pub struct Seating {
    slots: Vec<u8>,
}

impl Model for Seating {
    ghost use Rattle.std.specs.Prelude.{◌≡◌, ℕ, List, length};
    ghost use Rattle.mg_engine.specs.aids.Seating.{place_count};

    ghost Value = { List ℕ };

    ghost view = { λ seating. seating.slots.items };

    ghost invariant = { λ seating. length seating.slots.items ≡ place_count };
}

/// Returns the index of a place among the places of all rooms.
fn index_of(place: Place) -> usize
    requires within { IsWithinLimits place }
    ensures value { result ≡ index_of place }
    ensures within { result < place_count }
{
    usize::from(place.room) * SEATS + usize::from(place.seat)
}

impl Seating {
    /// Creates a table without members. Fails only if an allocation fails.
    pub fn new(alloc: Global) -> Result<Self, AllocError>
        ensures value { IfOk result (λ seating. seating ≡ replicate place_count 0) }
    {
        let mut slots = Vec::new(alloc);
        for _ in 0..CONTEXT_LIMIT * SEATS {
            slots.push(0)?;
        }
        Ok(Seating { slots })
    }

    /// Returns the slot of the member at the place.
    pub fn slot(&self, place: Place) -> u8
        requires within { IsWithinLimits place }
        ensures value { result ≡ slot_at self.now place }
    {
        self.slots[index_of(place)]
    }

    /// Sets the slot of the member at the place.
    pub fn put(&mut self, place: Place, slot: u8)
        requires within { IsWithinLimits place }
        ensures value { self.new ≡ slice_set self.old (index_of place) slot }
    {
        self.slots[index_of(place)] = slot;
    }
}
