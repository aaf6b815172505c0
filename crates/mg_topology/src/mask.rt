//! Sets of seats as bit masks: bit s of a [`Mask`] is 1 if seat s is in the set.
//!
//! A mask is a plain number, so that it can be printed, stored and compared. It cannot be confused with a seat, which
//! is a `usize`. Contracts describe the seats of a mask with the definitions of `specs/Mask.antt`, such as `has_seat`
//! and `seats_of`, so no other module deals with bits.

ghost use Rattle.std.specs.Prelude.{◌≡◌, ℕ, ◌+◌, ◌<◌, ◌≤◌, ◌∷◌, ◌&&◌, ◌||◌, ◌==◌, ◌↔◌, not, true, false, IsTrue, IsFalse, IfSome, IfNone, All, length, if◌then◌else◌};
ghost use Rattle.mg_topology.specs.Mask.{seat_limit, has_seat, seats_of, seat_count, is_disjoint, HaveCommonSeat, IsEmpty};
ghost use Rattle.mg_topology.specs.aids.Lowest.{IsLowest};

use crate::seats::Seats;

/// A set of seats: one bit for each of the [`SEATS`] seats.
pub type Mask = u64;

/// The number of seats, which is the number of bits in a mask. Each seat is a number below `SEATS`.
pub const SEATS: usize = Mask::BITS as usize;

/// The empty set.
pub const EMPTY: Mask = 0;

/// The set of all seats.
pub const FULL: Mask = Mask::MAX;

/// Returns whether the seat is in the set.
pub fn has_seat(mask: Mask, seat: usize) -> bool
    requires { seat < SEATS }
    ensures { result ≡ has_seat mask seat }
{
    mask >> seat & 1 == 1
}

/// Returns the set that contains only this seat.
pub fn of_seat(seat: usize) -> Mask
    requires { seat < SEATS }
    ensures { (s : ℕ) → has_seat result s ≡ (s == seat) }
{
    1 << seat
}

/// Returns the set with the seat added.
pub fn with_seat(mask: Mask, seat: usize) -> Mask
    requires { seat < SEATS }
    ensures { (s : ℕ) → has_seat result s ≡ (if s == seat then true else has_seat mask s) }
{
    union(mask, of_seat(seat))
}

/// Returns the set with the seat removed.
pub fn without_seat(mask: Mask, seat: usize) -> Mask
    requires { seat < SEATS }
    ensures seats { (s : ℕ) → has_seat result s ≡ (if s == seat then false else has_seat mask s) }

    // Removing a seat of the set makes the mask a smaller number, with one seat fewer. So a loop that removes seats
    // ends.
    ensures smaller { IsTrue (has_seat mask seat) → result < mask }
    ensures fewer { IsTrue (has_seat mask seat) → seat_count mask ≡ seat_count result + 1 }
    ensures rest { IsLowest mask seat → seats_of mask ≡ seat ∷ seats_of result }
{
    difference(mask, of_seat(seat))
}

/// Returns the set with the seat added if `is_in` is true, or removed if `is_in` is false.
pub fn set_seat(mask: Mask, seat: usize, is_in: bool) -> Mask
    requires { seat < SEATS }
    ensures { (s : ℕ) → has_seat result s ≡ (if s == seat then is_in else has_seat mask s) }
{
    if is_in {
        with_seat(mask, seat)
    } else {
        without_seat(mask, seat)
    }
}

/// Returns the seats in either set.
pub fn union(a: Mask, b: Mask) -> Mask
    ensures { (s : ℕ) → has_seat result s ≡ (has_seat a s || has_seat b s) }
{
    a | b
}

/// Returns the seats in both sets.
pub fn intersection(a: Mask, b: Mask) -> Mask
    ensures { (s : ℕ) → has_seat result s ≡ (has_seat a s && has_seat b s) }
{
    a & b
}

/// Returns the seats of the first set that are not in the second.
pub fn difference(a: Mask, b: Mask) -> Mask
    ensures seats { (s : ℕ) → has_seat result s ≡ (has_seat a s && not (has_seat b s)) }
    ensures no_larger { result ≤ a }
{
    a & !b
}

/// Returns whether the sets have no seat in common.
pub fn is_disjoint(a: Mask, b: Mask) -> bool
    ensures test { result ≡ is_disjoint a b }
    ensures common { IsFalse result ↔ HaveCommonSeat a b }
{
    intersection(a, b) == EMPTY
}

/// Returns an iterator over the seats of the set, in ascending order. The iterator takes one step for each seat.
pub fn seats(mask: Mask) -> Seats
    ensures value { result ≡ seats_of mask }
    ensures each { All (λ seat. (seat < seat_limit) × IsTrue (has_seat mask seat)) result }
    ensures at_most { length result ≤ seat_limit }
{
    Seats::new(mask)
}

/// Returns the lowest seat of the set, or `None` if the set is empty.
///
/// To walk a set that changes during the walk, remove its lowest seat with [`without_seat`] until none is left.
pub fn first_seat(mask: Mask) -> Option<usize>
    ensures some { IfSome result (λ seat. IsLowest mask seat) }
    ensures none { IfNone result (IsEmpty mask) }
{
    if mask == EMPTY {
        return None;
    }
    Some(mask.trailing_zeros() as usize)
}
