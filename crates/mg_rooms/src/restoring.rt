//! Puts terminations back, with the numbers, slots, seats and rooms that they had before.

ghost use Rattle.std.specs.Prelude.{◌≡◌, ◌<◌, ◌==◌, ◌&&◌, nat_le, nat_lt, None, find, is_none, if◌then◌else◌};
ghost use Rattle.std.specs.List.{list_any};
ghost use Rattle.mg_words.specs.Limits.{context_limit};
ghost use Rattle.mg_rooms.specs.Registry.{record_at, context_at, holder_of};
ghost use Rattle.mg_rooms.specs.aids.Restoring.{is_free, is_open_in, is_within, may_restore, may_skip, put_back, reopened, restored, skipped};

use crate::context::Context;
use crate::entries::held_seats;
use crate::members::Members;
use crate::record::Record;
use crate::tables::Tables;
use mg_words::{CONTEXT_LIMIT, LAST_CONTEXT, LAST_TERMINATION, MAX_DEPTH, MEMBER_LIMIT, MIN_DEPTH};

impl Tables {
    /// Raises the numbers of the next termination and the next context. Returns false, and changes nothing, if either is
    /// lower than now or higher than the last number plus one.
    pub(crate) fn skip_to(&mut self, termination: u64, context: u64) -> bool
        ensures value { result ≡ may_skip self.old termination context }
        ensures outcome { self.new ≡ (if result then skipped self.old termination context else self.old) }
    {
        if !self.may_skip(termination, context) {
            return false;
        }
        self.next_termination = termination;
        self.next_context = context;
        true
    }

    fn may_skip(&self, termination: u64, context: u64) -> bool
        ensures value { result ≡ may_skip self.now termination context }
    {
        self.next_termination <= termination
            && termination <= u64::from(LAST_TERMINATION) + 1
            && self.next_context <= context
            && context <= u64::from(LAST_CONTEXT) + 1
    }

    /// Puts a termination back, as the last member of its context. Creates the context in the room if it doesn't exist.
    ///
    /// Returns false, and changes nothing, if the termination or its context can't be as the record and the room say.
    pub(crate) fn restore(&mut self, termination: &Record, room: u8) -> bool
        ensures value { result ≡ may_restore self.old termination.now room }
        ensures outcome { self.new ≡ (if result then restored self.old termination.now room else self.old) }
    {
        if !self.may_restore(termination, room) {
            return false;
        }
        let is_open = self.room(termination.context).is_some();
        self.put_back(*termination);
        if is_open {
            self.join(termination.context, termination.number);
        } else {
            self.reopen(termination.context, room, termination.number);
        }
        true
    }

    fn may_restore(&self, termination: &Record, room: u8) -> bool
        ensures value { result ≡ may_restore self.now termination.now room }
    {
        self.is_within(termination)
            && self.is_free(termination)
            && self.is_open_in(termination.context, room)
    }

    /// Returns whether the number was assigned before, and the slot, the seat and the depth are within the limits.
    fn is_within(&self, termination: &Record) -> bool
        ensures value { result ≡ is_within self.now termination.now }
    {
        self.limits.first_termination <= termination.number
            && u64::from(termination.number) < self.next_termination
            && u16::from(termination.slot) < self.limits.slots
            && usize::from(termination.seat) < MEMBER_LIMIT
            && MIN_DEPTH <= usize::from(termination.depth)
            && usize::from(termination.depth) <= MAX_DEPTH
    }

    /// Returns whether no termination has the number, the slot, or the seat in this context.
    fn is_free(&self, termination: &Record) -> bool
        requires seat { termination.now.seat < MEMBER_LIMIT }
        ensures value { result ≡ is_free self.now termination.now }
    {
        self.record(termination.number).is_none()
            && self.held(termination.slot).is_none()
            && !self.has_seat(termination.context, termination.seat)
    }

    /// Returns whether a termination holds the seat in the context.
    fn has_seat(&self, context: u32, seat: u8) -> bool
        requires seat { seat < MEMBER_LIMIT }
        ensures value { result ≡ list_any (λ x. (x.context == context) && (x.seat == seat)) self.now.terminations }
    {
        let held = held_seats(&self.slots, context);
        held[usize::from(seat)]
    }

    /// Returns whether the context exists in the room and isn't full, or can be created there.
    fn is_open_in(&self, context: u32, room: u8) -> bool
        ensures value { result ≡ is_open_in self.now context room (context_at self.now context) }
    {
        match self.room(context) {
            Some(found) => found == room && self.members(context).len() < MEMBER_LIMIT,
            None => self.was_assigned(context) && self.is_empty_room(room),
        }
    }

    fn was_assigned(&self, context: u32) -> bool
        ensures value { result ≡ (nat_le self.now.limits.first_context context && nat_lt context self.now.next_context) }
    {
        self.limits.first_context <= context && u64::from(context) < self.next_context
    }

    fn is_empty_room(&self, room: u8) -> bool
        ensures value { result ≡
            (nat_lt room context_limit && is_none (find (λ x. x.room == room) self.now.contexts)) }
    {
        usize::from(room) < CONTEXT_LIMIT && self.rooms[usize::from(room)].is_none()
    }

    /// Adds a termination in its slot, which must be free. The next number is unchanged.
    fn put_back(&mut self, termination: Record)
        requires slot { holder_of self.old termination.slot ≡ None }
        requires within { termination.slot < self.old.limits.slots }
        requires number { record_at self.old termination.number ≡ None }
        requires below { termination.number < self.old.next_termination }
        ensures value { self.new ≡ put_back self.old termination }
    {
        self.slot_hints.note(termination.number, termination.slot);
        self.slots[termination.slot as usize] = Some(termination);
    }

    /// Creates a context in an empty room, with one member. The next number is unchanged.
    fn reopen(&mut self, context: u32, room: u8, member: u32)
        requires room { find (λ x. x.room == room) self.old.contexts ≡ None }
        requires within { room < context_limit }
        requires number { context_at self.old context ≡ None }
        requires below { context < self.old.next_context }
        ensures value { self.new ≡ reopened self.old context room member }
    {
        self.room_hints.note(context, room);
        self.rooms[room as usize] = Some(Context {
            number: context,
            room,
            members: Members::alone(member),
        });
    }
}
