//! Joins the rows of talking members to the rooms of their contexts.

ghost use Rattle.std.specs.Prelude.{◌≡◌, ◌<◌, ◌↔◌, IsTrue, None, Some, length};
ghost use Rattle.mg_words.specs.Limits.{context_limit, termination_limit};
ghost use Rattle.mg_sums.specs.aids.Sums.{room_of};
ghost use Rattle.mg_engine.specs.Work.{RisesAtMost};
ghost use Rattle.mg_engine.specs.aids.Joined.{SetsRow, room_for};

use mg_rooms::{Mode, mode_talks};
use mg_sums::{Room, Row, Sums};

/// Returns the room that a member's row is joined to: the member's room if the member talks, and otherwise none.
fn room_for(mode: Mode, room: u8) -> Option<Room>
    requires room { room < context_limit }
    ensures value { result ≡ room_for mode room }
{
    if mode_talks(mode) {
        Some(Room::new(room))
    } else {
        None
    }
}

/// Returns whether the two rooms are the same, or both `None`.
fn is_same(a: Option<Room>, b: Option<Room>) -> bool
    ensures value { IsTrue result ↔ (a ≡ b) }
{
    match (a, b) {
        (Some(a), Some(b)) => a.number() == b.number(),
        (None, None) => true,
        _ => false,
    }
}

/// If a row is joined to a room, removes it from the room.
pub fn part(sums: &mut Sums, row: Row)
    ensures rooms { SetsRow sums.old.rooms sums.new.rooms row None }
    ensures rows { length sums.new.rooms ≡ termination_limit }
    ensures frames { sums.new.frames ≡ sums.old.frames }
    ensures work { RisesAtMost 1 sums.old.work sums.new.work }
{
    if let Some(room) = sums.room(row) {
        sums.leave(room, row);
    }
}

/// Joins a row to a room, or does nothing if the room is `None`. The row must not be joined to any room yet.
fn join(sums: &mut Sums, row: Row, room: Option<Room>)
    requires free { room_of sums.old row ≡ None }
    requires rows { length sums.old.rooms ≡ termination_limit }
    ensures rooms { SetsRow sums.old.rooms sums.new.rooms row room }
    ensures rows { length sums.new.rooms ≡ termination_limit }
    ensures frames { sums.new.frames ≡ sums.old.frames }
    ensures work { RisesAtMost 1 sums.old.work sums.new.work }
{
    if let Some(room) = room {
        sums.join(room, row);
    }
}

/// If a member talks, joins its row to its room. Otherwise, if the row is joined to a room, removes it from the room.
pub fn join_if_talking(sums: &mut Sums, row: Row, room: u8, mode: Mode)
    requires room { room < context_limit }
    ensures rooms { SetsRow sums.old.rooms sums.new.rooms row (room_for mode room) }
    ensures rows { length sums.new.rooms ≡ termination_limit }
    ensures frames { sums.new.frames ≡ sums.old.frames }
    ensures work { RisesAtMost 2 sums.old.work sums.new.work }
{
    if is_same(sums.room(row), room_for(mode, room)) {
        return;
    }
    part(sums, row);
    join(sums, row, room_for(mode, room));
}
