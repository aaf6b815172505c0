ghost use Rattle.std.specs.Prelude.{◌≡◌, ◌<◌, ◌≤◌, nat_lt, if◌then◌else◌, Some, None, true, IfOk, IfSome, IfNone, OnErr, length, map, count_by, option_map};
ghost use Rattle.mg_rooms.specs.Limits.{slot_port, AreValidLimits};
ghost use Rattle.mg_rooms.specs.Registry.{start_of, record_at, context_at, members_at, holder_of};
ghost use Rattle.mg_rooms.specs.aids.Lasting.{Lasts, LeavesOthers};
ghost use Rattle.mg_rooms.specs.aids.Member.{ExistsAs};
ghost use Rattle.mg_rooms.specs.Outcome.{member, add, modify, move_to, subtract};
ghost use Rattle.mg_rooms.specs.aids.Gives.{Gives};
ghost use Rattle.mg_rooms.specs.aids.Restoring.{may_restore, may_skip, restored, skipped};

use crate::limits::Limits;
use crate::member::Member;
use crate::moved::Moved;
use crate::record::Record;
use crate::settings::Settings;
use crate::tables::Tables;
use crate::target::Target;
use arrayvec::ArrayVec;
use mg_words::{CONTEXT_LIMIT, ErrorNumber, MEMBER_LIMIT};
use std::alloc::{AllocError, Global};
use std::marker::Model;

/// The terminations and contexts of a gateway.
///
/// In contracts, they appear in order of their numbers, together with the next numbers to assign
/// (`specs/Registry.antt`). `IsConsistent` (`specs/Consistent.antt`) holds after any sequence of commands.
#[derive(Drop)]
pub struct Rooms {
    tables: Tables,
}

impl Model for Rooms {
    ghost use Rattle.mg_rooms.specs.Registry.{Registry};

    ghost Value = { Registry };

    ghost use Rattle.mg_rooms.specs.Consistent.{IsConsistent};

    ghost view = { λ a. a.tables };

    ghost invariant = { λ a. IsConsistent a.tables };
}

impl Rooms {
    ghost use Rattle.mg_rooms.specs.Consistent.{IsConsistent};

    /// Creates a gateway without terminations or contexts.
    ///
    /// Fails only if an allocation fails. No other call allocates.
    pub fn new(alloc: Global, limits: Limits) -> Result<Rooms, AllocError>
        requires valid { AreValidLimits limits }
        ensures start { IfOk result (λ rooms. rooms ≡ start_of limits) }
        ensures consistent { IfOk result IsConsistent }
    {
        let tables = Tables::new(alloc, limits)?;
        Ok(Rooms { tables })
    }

    /// Returns the termination with this number, or `None` if it doesn't exist.
    pub fn record(&self, number: u32) -> Option<Record>
        ensures value { result ≡ record_at self.now number }
        ensures slot { IfSome result (λ r. r.slot < self.now.limits.slots) }
    {
        self.tables.record(number)
    }

    /// Returns the termination with this number and the room of its context, or `None` if it doesn't exist.
    pub fn member(&self, number: u32) -> Option<Member>
        ensures some { IfSome result (ExistsAs self.now number) }
        ensures none { IfNone result (record_at self.now number ≡ None) }
    {
        let record = self.tables.record(number)?;
        Some(self.tables.member_of(record))
    }

    /// Returns the numbers of a context's members in order of entry, or none if the context does not exist.
    pub fn members(&self, context: u32) -> &[u32]
        ensures value { result.now ≡ members_at self.now context }
        ensures few { length result.now ≤ MEMBER_LIMIT }
    {
        self.tables.members(context)
    }

    /// Returns the room of a context, below [`CONTEXT_LIMIT`](crate::CONTEXT_LIMIT), or `None` if the context doesn't
    /// exist.
    ///
    /// No other existing context has the same room.
    pub fn room(&self, context: u32) -> Option<u8>
        ensures value { result ≡ option_map (λ x. x.room) (context_at self.now context) }
    {
        self.tables.room(context)
    }

    /// Returns the numbers of all contexts, in ascending order.
    pub fn contexts(&self) -> ArrayVec<u32, CONTEXT_LIMIT>
        ensures value { result.items ≡ map (λ x. x.number) self.now.contexts }
    {
        self.tables.contexts()
    }

    /// Returns how many terminations have a number below this one.
    pub fn rank(&self, number: u32) -> usize
        ensures value { result ≡ count_by (λ r. nat_lt r.number number) self.now.terminations }
    {
        self.tables.rank(number)
    }

    /// Returns the number that the next termination gets. It is above the last number if no number is left.
    pub fn next_termination(&self) -> u64
        ensures value { result ≡ self.now.next_termination }
    {
        self.tables.next_termination
    }

    /// Returns the number that the next context gets. It is above the last number if no number is left.
    pub fn next_context(&self) -> u64
        ensures value { result ≡ self.now.next_context }
    {
        self.tables.next_context
    }

    /// Returns the UDP port of a slot, or `None` if there is no such slot.
    pub fn port(&self, slot: u8) -> Option<u16>
        ensures value { result ≡ (if nat_lt slot self.now.limits.slots then Some (slot_port self.now.limits slot) else
            None) }
    {
        let limits = self.tables.limits;
        if u16::from(slot) < limits.slots {
            Some(limits.slot_port(slot))
        } else {
            None
        }
    }

    /// Returns the termination in a slot, or `None` if no termination holds the slot.
    pub fn held(&self, slot: u8) -> Option<Record>
        ensures value { result ≡ holder_of self.now slot }
        ensures slot { IfSome result (λ r. r.slot < self.now.limits.slots) }
    {
        self.tables.held(slot)
    }

    /// Returns the number of the termination in a slot, or `None` if no termination holds the slot.
    pub fn at_slot(&self, slot: u8) -> Option<u32>
        ensures value { result ≡ option_map (λ r. r.number) (holder_of self.now slot) }
    {
        let record = self.tables.held(slot)?;
        Some(record.number)
    }

    /// Returns a member of the action's context, or an error if the termination isn't a member.
    pub fn find(&self, target: Target, number: u32) -> Result<Record, ErrorNumber>
        ensures value { result ≡ member self.now target number }
    {
        self.tables.member(target, number)
    }

    /// Creates a termination in the action's context, and the context too if it is new (RFC 3525, section 7.2.1).
    ///
    /// Returns the new termination.
    #[tactic(auto, using(crate::proofs::RoomsLemmas::rules))]
    pub fn add(&mut self, target: Target, settings: &Settings) -> Result<Member, ErrorNumber>
        ensures outcome { Gives (λ m. m.record) self.old self.new result (add self.old target settings.now) }
        ensures refused { OnErr result (self.new ≡ self.old) }
        ensures consistent { IsConsistent self.new }
        ensures member { IfOk result (λ m. ExistsAs self.new m.record.number m) }
        ensures lasts { Lasts self.old self.new }
        ensures others { IfOk result (λ m. LeavesOthers self.old self.new m.record.number m.record.context
            m.record.context) }
    {
        let made = self.tables.add(target, settings)?;
        Ok(self.tables.member_of(made))
    }

    /// Changes a member of the action's context (RFC 3525, section 7.2.2).
    ///
    /// Returns the changed termination.
    #[tactic(auto, using(crate::proofs::RoomsLemmas::rules))]
    pub fn modify(
        &mut self,
        target: Target,
        number: u32,
        settings: &Settings,
    ) -> Result<Member, ErrorNumber>
        ensures outcome { Gives (λ m. m.record) self.old self.new result (modify self.old target number settings.now) }
        ensures refused { OnErr result (self.new ≡ self.old) }
        ensures consistent { IsConsistent self.new }
        ensures member { IfOk result (ExistsAs self.new number) }
        ensures lasts { Lasts self.old self.new }
        ensures others { IfOk result (λ m. LeavesOthers self.old self.new number m.record.context m.record.context) }
    {
        let changed = self.tables.modify(target, number, settings)?;
        Ok(self.tables.member_of(changed))
    }

    /// Moves a termination to the action's context (RFC 3525, section 7.2.4).
    ///
    /// If the context that it leaves has no other member, that context ends. Returns the termination as it was before
    /// and after the move.
    #[tactic(auto, using(crate::proofs::RoomsLemmas::rules))]
    pub fn move_to(
        &mut self,
        target: Target,
        number: u32,
        settings: &Settings,
    ) -> Result<Moved, ErrorNumber>
        ensures outcome { Gives (λ m. m.to.record) self.old self.new result
            (move_to self.old target number settings.now) }
        ensures refused { OnErr result (self.new ≡ self.old) }
        ensures consistent { IsConsistent self.new }
        ensures from { IfOk result (λ m. ExistsAs self.old number m.from) }
        ensures to { IfOk result (λ m. ExistsAs self.new number m.to) }
        ensures lasts { Lasts self.old self.new }
        ensures others { IfOk result (λ m. LeavesOthers self.old self.new number m.from.record.context
            m.to.record.context) }
    {
        let old = self.tables.named(number)?;
        let from = self.tables.member_of(old);
        let moved = self.tables.move_to(target, from, settings)?;
        let to = self.tables.member_of(moved);
        Ok(Moved { from, to })
    }

    /// Removes a member from the action's context, and ends the termination (RFC 3525, section 7.2.3).
    ///
    /// The context ends if it has no other member. Returns the termination as it was before the command.
    #[tactic(auto, using(crate::proofs::RoomsLemmas::rules), unfolding(crate::specs::Outcome::subtract))]
    pub fn subtract(&mut self, target: Target, number: u32) -> Result<Member, ErrorNumber>
        ensures outcome { Gives (λ m. m.record) self.old self.new result (subtract self.old target number) }
        ensures refused { OnErr result (self.new ≡ self.old) }
        ensures consistent { IsConsistent self.new }
        ensures member { IfOk result (ExistsAs self.old number) }
        ensures lasts { Lasts self.old self.new }
        ensures others { IfOk result (λ m. LeavesOthers self.old self.new number m.record.context m.record.context) }
    {
        let old = self.tables.member(target, number)?;
        let gone = self.tables.member_of(old);
        self.tables.end(gone);
        Ok(gone)
    }

    /// Raises the numbers of the next termination and the next context.
    ///
    /// Returns false, and changes nothing, if either is lower than now or higher than the last number plus one.
    pub fn skip_to(&mut self, termination: u64, context: u64) -> bool
        ensures value { result ≡ may_skip self.old termination context }
        ensures outcome { self.new ≡ (if result then skipped self.old termination context else self.old) }
        ensures consistent { IsConsistent self.new }
    {
        self.tables.skip_to(termination, context)
    }

    /// Puts back a termination that the gateway had before it was restarted.
    ///
    /// The termination becomes the last member of its context. If the context doesn't exist, it is created in this
    /// room. Returns false, and changes nothing, in these cases: the record or the room is not within the limits;
    /// a number isn't below the next one of its kind ([`Rooms::skip_to`]); another termination holds the number, the slot
    /// or the seat; the context is full or in another room; another context holds the room.
    pub fn restore(&mut self, termination: &Record, room: u8) -> bool
        ensures value { result ≡ may_restore self.old termination.now room }
        ensures outcome { self.new ≡ (if result then restored self.old termination.now room else self.old) }
        ensures consistent { IsConsistent self.new }
        ensures member { result ≡ true → ExistsAs self.new termination.now.number
            (record { «record» = termination.now; room = room }) }
        ensures lasts { Lasts self.old self.new }
        ensures others { LeavesOthers self.old self.new termination.now.number termination.now.context termination.now.context }
    {
        self.tables.restore(termination, room)
    }
}
