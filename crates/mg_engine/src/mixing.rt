//! The rows that a mix subtracts from a total.

ghost use Rattle.std.specs.Prelude.{◌≡◌, ℕ, ◌<◌, ◌≤◌, length, map, IsTrue, Some, None, if◌then◌else◌};
ghost use Rattle.mg_words.specs.Limits.{context_limit, termination_limit};
ghost use Rattle.mg_words.specs.Mode.{talks};
ghost use Rattle.mg_topology.specs.Mask.{has_seat, seats_of};
ghost use Rattle.mg_engine.specs.aids.Seating.{slot_at};

use crate::seating::Seating;
use arrayvec::ArrayVec;
use mg_flow::Place;
use mg_rooms::{Record, mode_talks};
use mg_sums::Row;
use mg_topology::SEATS;
use mg_topology::mask::{self, Mask};

/// Returns the listener's own row, which it must not hear, or `None` if the listener does not talk.
pub fn own_row(listener: &Record) -> Option<Row>
    requires slot { listener.now.slot < termination_limit }
    ensures value { result ≡ (if talks listener.now.mode then Some listener.now.slot else None) }
{
    if mode_talks(listener.mode) {
        Some(Row::new(listener.slot))
    } else {
        None
    }
}

/// Returns the rows of the members in the given seats of a room.
pub fn rows_on(seating: &Seating, room: u8, seats: Mask) -> ArrayVec<Row, SEATS>
    requires room { room < context_limit }
    requires slots { (seat : ℕ) → IsTrue (has_seat seats seat) →
        slot_at seating.now (record { room = room; seat = seat }) < termination_limit }
    ensures value { result.items ≡ map (λ seat. slot_at seating.now (record { room = room; seat = seat }))
        (seats_of seats) }
{
    let mut rows = ArrayVec::new();
    for seat in mask::seats(seats) {
        let place = Place {
            room,
            seat: seat as u8,
        };
        rows.push(Row::new(seating.slot(place)));
    }
    rows
}
