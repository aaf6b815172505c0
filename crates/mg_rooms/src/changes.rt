//! The individual steps by which commands change terminations and contexts.

ghost use Rattle.std.specs.Prelude.{◌≡◌, ◌<◌, IfSome, Some, true, length, nat_le};
ghost use Rattle.mg_words.specs.Limits.{last_termination};
ghost use Rattle.mg_rooms.specs.Registry.{record_at, members_at, free_slot};
ghost use Rattle.mg_rooms.specs.Changes.{inserted, replaced, removed, made, joined, entered, left};
ghost use Rattle.mg_rooms.specs.aids.Entering.{CanEnter, CanEnterAt};

use crate::context::Context;
use crate::entries::{enter_entry, leave_entry, room_of, slot_of};
use crate::member::Member;
use crate::members::Members;
use crate::place::EntryPlace;
use crate::record::Record;
use crate::tables::Tables;
use mg_words::MEMBER_LIMIT;

impl Tables {
    /// Returns the number of the next termination.
    pub(crate) fn next_number(&self) -> u32
        requires left { nat_le self.now.next_termination last_termination ≡ true }
        ensures value { result ≡ self.now.next_termination }
    {
        self.next_termination as u32
    }

    /// Creates a termination in a free slot.
    pub(crate) fn insert(&mut self, fresh: Record)
        requires slot { free_slot self.old ≡ Some fresh.slot }
        requires number { fresh.number ≡ self.old.next_termination }
        ensures value { self.new ≡ inserted self.old fresh }
    {
        self.slot_hints.note(fresh.number, fresh.slot);
        self.slots[fresh.slot as usize] = Some(fresh);
        self.next_termination += 1;
    }

    /// Overwrites a termination's record.
    pub(crate) fn replace(&mut self, changed: Record)
        requires slot { IfSome (record_at self.old changed.number) (λ r. r.slot ≡ changed.slot) }
        ensures value { self.new ≡ replaced self.old changed }
    {
        if let Some(slot) = slot_of(&self.slots, changed.slot, changed.number) {
            self.slots[slot] = Some(changed);
        }
    }

    /// Removes a termination.
    pub(crate) fn remove(&mut self, old: Record)
        ensures value { self.new ≡ removed self.old old.number }
    {
        if let Some(slot) = slot_of(&self.slots, old.slot, old.number) {
            self.slots[slot] = None;
        }
    }

    /// Removes a member from its context. The context ends if it has no other member.
    pub(crate) fn leave(&mut self, old: Member)
        ensures value { self.new ≡ left self.old old.record.context old.record.number }
    {
        if let Some(room) = room_of(&self.rooms, old.room, old.record.context) {
            leave_entry(&mut self.rooms[room], old.record.number);
        }
    }

    /// Adds a termination to a context at the given place. If `place` has a room for a new context, creates the
    /// context.
    pub(crate) fn enter(&mut self, place: EntryPlace, number: u32)
        requires can { CanEnter self.old place }
        ensures value { self.new ≡ entered self.old place number }
    {
        match place.made {
            Some(room) => self.make(place.context, room, number),
            None => self.join(place.context, number),
        }
    }

    /// Adds a termination to an existing context.
    pub(crate) fn join(&mut self, context: u32, number: u32)
        requires room { length (members_at self.old context) < MEMBER_LIMIT }
        ensures value { self.new ≡ joined self.old context number }
    {
        if let Some(room) = room_of(&self.rooms, self.room_hints.place(context), context) {
            enter_entry(&mut self.rooms[room], number);
        }
    }

    /// Creates a context with its first member.
    fn make(&mut self, context: u32, room: u8, member: u32)
        requires can { CanEnterAt self.old.contexts self.old.next_context context (Some room) }
        ensures value { self.new ≡ made self.old context room member }
    {
        self.room_hints.note(context, room);
        self.rooms[room as usize] = Some(Context {
            number: context,
            room,
            members: Members::alone(member),
        });
        self.next_context += 1;
    }
}
