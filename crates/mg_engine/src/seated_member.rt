ghost use Rattle.std.specs.Prelude.{◌≡◌, ◌<◌, ◌≤◌, ℕ, All, IsSome, length, map, slice_index_or};
ghost use Rattle.mg_rooms.specs.Registry.{record_at};
ghost use Rattle.mg_engine.specs.aids.Place.{IsOnSeat, seated_place};

use arrayvec::ArrayVec;
use mg_flow::Place;
use mg_rooms::{MEMBER_LIMIT, Rooms};

/// A member of a context with its place, both found in one lookup. The place is valid until the next edit.
#[derive(Clone, Copy, Debug, Default, PartialEq, Eq)]
pub struct SeatedMember {
    /// The number of the termination.
    pub number: u32,
    /// The room of its context.
    pub room: u8,
    /// The seat of the termination in the context.
    pub seat: u8,
}

impl SeatedMember {
    /// Returns the place of the member.
    pub(crate) fn place(self) -> Place
        ensures value { result ≡ seated_place self }
    {
        Place {
            room: self.room,
            seat: self.seat,
        }
    }
}

/// Returns a termination with its place.
fn seated_member(rooms: &Rooms, number: u32) -> SeatedMember
    requires there { IsSome (record_at rooms.now number) }
    ensures number { result.number ≡ number }
    ensures place { IsOnSeat rooms.now result }
{
    let member = rooms.member(number).unwrap();
    SeatedMember {
        number,
        room: member.room,
        seat: member.record.seat,
    }
}

/// Returns the terminations with these numbers, together with their places.
pub fn seated_members(rooms: &Rooms, numbers: &[u32]) -> ArrayVec<SeatedMember, MEMBER_LIMIT>
    requires few { length numbers.now ≤ MEMBER_LIMIT }
    requires there { (i : ℕ) → i < length numbers.now → IsSome (record_at rooms.now (slice_index_or numbers.now i 0)) }
    ensures numbers { map (λ m. m.number) result.items ≡ numbers.now }
    ensures places { All (IsOnSeat rooms.now) result.items }
{
    let mut seated = ArrayVec::new();
    for number in numbers {
        seated.push(seated_member(rooms, *number));
    }
    seated
}
