//! Updates the table of flows when members enter, leave or change, and joins the rows of talking members to their
//! rooms.

ghost use Rattle.std.specs.Prelude.{◌≡◌, ◌<◌, IsFalse, IsTrue, length, slice_set};
ghost use Rattle.mg_words.specs.Limits.{termination_limit};
ghost use Rattle.mg_flow.specs.aids.Place.{IsWithinLimits};
ghost use Rattle.mg_flow.specs.aids.Table as table;
ghost use Rattle.mg_engine.specs.aids.Place.{place_of, member_place};
ghost use Rattle.mg_engine.specs.aids.Seating.{index_of};
ghost use Rattle.mg_engine.specs.Work.{RisesAtMost};
ghost use Rattle.mg_engine.specs.aids.Joined.{SetsRow, room_for};
ghost use Rattle.mg_engine.specs.aids.Members.{Enters, Leaves, TakesMode};

use crate::joining::join_if_talking;
use crate::seating::Seating;
use mg_flow::{FlowTable, Place};
use mg_rooms::{Member, Record, Rooms, mode_listens, mode_talks};
use mg_sums::{Row, Sums};

/// Returns the place of a member.
pub fn member_place(member: Member) -> Place
    ensures value { result ≡ member_place member }
{
    Place {
        room: member.room,
        seat: member.record.seat,
    }
}

/// Returns the place of a termination: the room of its context, and its seat. Returns `None` if the context doesn't
/// exist.
pub fn place_of(rooms: &Rooms, termination: &Record) -> Option<Place>
    ensures value { result ≡ place_of rooms.now termination.now }
{
    let room = rooms.room(termination.context)?;
    Some(Place {
        room,
        seat: termination.seat,
    })
}

/// Adds a member at its place. If the member talks, its row is joined to the room.
pub fn enter(flows: &mut FlowTable, seating: &mut Seating, sums: &mut Sums, member: Member)
    requires within { IsWithinLimits (member_place member) }
    requires slot { member.record.slot < termination_limit }
    requires free { IsFalse (table.holds flows.old (member_place member)) }
    ensures entered { Enters flows.old flows.new (member_place member) member.record.mode }
    ensures seated { seating.new ≡ slice_set seating.old (index_of (member_place member)) member.record.slot }
    ensures joined { SetsRow sums.old.rooms sums.new.rooms member.record.slot
        (room_for member.record.mode member.room) }
    ensures rows { length sums.new.rooms ≡ termination_limit }
    ensures frames { sums.new.frames ≡ sums.old.frames }
    ensures work { RisesAtMost 2 sums.old.work sums.new.work }
{
    let place = member_place(member);
    let mode = member.record.mode;
    flows.on_enter(place, mode_talks(mode), mode_listens(mode));
    seating.put(place, member.record.slot);
    join_if_talking(sums, Row::new(member.record.slot), place.room, mode);
}

/// Removes a member from its place.
pub fn vacate(flows: &mut FlowTable, member: Member)
    requires held { IsTrue (table.holds flows.old (member_place member)) }
    ensures left { Leaves flows.old flows.new (member_place member) }
{
    flows.on_leave(member_place(member));
}

/// Changes a member's mode. If the member now talks, its row is joined to the room; otherwise, it isn't joined to any
/// room.
pub fn take_mode(flows: &mut FlowTable, sums: &mut Sums, member: Member)
    requires within { IsWithinLimits (member_place member) }
    requires slot { member.record.slot < termination_limit }
    requires held { IsTrue (table.holds flows.old (member_place member)) }
    ensures taken { TakesMode flows.old flows.new (member_place member) member.record.mode }
    ensures joined { SetsRow sums.old.rooms sums.new.rooms member.record.slot
        (room_for member.record.mode member.room) }
    ensures rows { length sums.new.rooms ≡ termination_limit }
    ensures frames { sums.new.frames ≡ sums.old.frames }
    ensures work { RisesAtMost 2 sums.old.work sums.new.work }
{
    let place = member_place(member);
    let mode = member.record.mode;
    flows.on_mode(place, mode_talks(mode), mode_listens(mode));
    join_if_talking(sums, Row::new(member.record.slot), place.room, mode);
}
