ghost use Rattle.std.specs.Prelude.{◌≡◌, ◌<◌, ◌≤◌, IfOk, IfSome, IsSome, Some, length, option_map};
ghost use Rattle.mg_rooms.specs.Limits.{AreValidLimits};
ghost use Rattle.mg_rooms.specs.Registry.{start_of, record_at, context_at, members_at, holder_of, free_slot, free_seat};

use crate::context::Context;
use crate::entries::{empty_place, empty_table, first_free, held_seats, room_of, slot_of};
use crate::hints::Hints;
use crate::limits::Limits;
use crate::member::Member;
use crate::record::Record;
use mg_words::{CONTEXT_LIMIT, MEMBER_LIMIT};
use std::alloc::{AllocError, Global};
use std::marker::Model;

/// The terminations by slot and the contexts by room.
///
/// In contracts, they appear in order of their numbers. The calls preserve only what the tables themselves need. The
/// invariant of [`Rooms`](crate::Rooms) says that each context's members are exactly the terminations whose records
/// name it.
#[derive(Drop)]
pub struct Tables {
    pub(crate) limits: Limits,
    pub(crate) slots: Vec<Option<Record>>,
    pub(crate) rooms: Vec<Option<Context>>,
    pub(crate) slot_hints: Hints,
    pub(crate) room_hints: Hints,
    pub(crate) next_termination: u64,
    pub(crate) next_context: u64,
}

impl Model for Tables {
    ghost use Rattle.mg_rooms.specs.Registry.{Registry};

    ghost Value = { Registry };

    ghost use Rattle.mg_rooms.specs.aids.Tables.{registry_of, HasTables};

    ghost view = { registry_of };

    ghost invariant = { HasTables };
}

impl Tables {
    /// Creates empty tables. Fails only if an allocation fails.
    pub(crate) fn new(alloc: Global, limits: Limits) -> Result<Tables, AllocError>
        requires valid { AreValidLimits limits }
        ensures value { IfOk result (λ tables. tables ≡ start_of limits) }
    {
        let slots = empty_table(alloc, usize::from(limits.slots))?;
        let rooms = empty_table(alloc, CONTEXT_LIMIT)?;
        Ok(Tables {
            limits,
            slots,
            rooms,
            slot_hints: Hints::new(),
            room_hints: Hints::new(),
            next_termination: u64::from(limits.first_termination),
            next_context: u64::from(limits.first_context),
        })
    }

    /// Returns the record of a termination, or `None` if it doesn't exist.
    pub(crate) fn record(&self, number: u32) -> Option<Record>
        ensures value { result ≡ record_at self.now number }
        ensures slot { IfSome result (λ r. r.slot < self.now.limits.slots) }
    {
        let slot = slot_of(&self.slots, self.slot_hints.place(number), number)?;
        self.slots[slot]
    }

    /// Returns the members of a context in order of entry, or none if the context does not exist.
    pub(crate) fn members(&self, context: u32) -> &[u32]
        ensures value { result.now ≡ members_at self.now context }
        ensures few { length result.now ≤ MEMBER_LIMIT }
    {
        match room_of(&self.rooms, self.room_hints.place(context), context) {
            Some(room) => match &self.rooms[room] {
                Some(found) => found.members.as_slice(),
                None => &[],
            },
            None => &[],
        }
    }

    /// Returns the room of a context, or `None` if it doesn't exist.
    pub(crate) fn room(&self, context: u32) -> Option<u8>
        ensures value { result ≡ option_map (λ x. x.room) (context_at self.now context) }
    {
        let room = room_of(&self.rooms, self.room_hints.place(context), context)?;
        Some(room as u8)
    }

    /// Returns a termination with the room of its context. The context must exist.
    pub(crate) fn member_of(&self, termination: Record) -> Member
        requires there { IsSome (context_at self.now termination.context) }
        ensures termination { result.record ≡ termination }
        ensures room { option_map (λ x. x.room) (context_at self.now termination.context) ≡ Some result.room }
    {
        let room = self.room(termination.context).unwrap();
        Member {
            record: termination,
            room,
        }
    }

    /// Returns the record of the termination in a slot, or `None` if no termination holds the slot.
    pub(crate) fn held(&self, slot: u8) -> Option<Record>
        ensures value { result ≡ holder_of self.now slot }
        ensures slot { IfSome result (λ r. r.slot < self.now.limits.slots) }
    {
        let slot = usize::from(slot);
        if slot < self.slots.len() {
            self.slots[slot]
        } else {
            None
        }
    }

    /// Returns the lowest free slot, or `None` if no slot is free.
    pub(crate) fn free_slot(&self) -> Option<u8>
        ensures value { result ≡ free_slot self.now }
        ensures below { IfSome result (λ slot. slot < self.now.limits.slots) }
    {
        let slot = empty_place(&self.slots)?;
        Some(slot as u8)
    }

    /// Returns the lowest free seat of the context, or `None` if no seat is free.
    pub(crate) fn free_seat(&self, context: u32) -> Option<u8>
        ensures value { result ≡ free_seat self.now context }
    {
        let held = held_seats(&self.slots, context);
        let seat = first_free(&held)?;
        Some(seat as u8)
    }
}
