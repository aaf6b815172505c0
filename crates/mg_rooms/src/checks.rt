//! The checks that commands must pass. They change nothing.

ghost use Rattle.std.specs.Prelude.{◌≡◌, ◌<◌, true, nat_le, IfOk, Some};
ghost use Rattle.mg_words.specs.Limits.{last_termination};
ghost use Rattle.mg_rooms.specs.Registry.{record_at, free_slot};
ghost use Rattle.mg_rooms.specs.Record.{with_settings};
ghost use Rattle.mg_rooms.specs.Outcome.{named, there, may_enter, may_have_members, is_number, member, new_slot, new_seat, new_context, new_place};
ghost use Rattle.mg_rooms.specs.aids.Entering.{CanEnter};

use crate::entries::empty_place;
use crate::place::EntryPlace;
use crate::record::Record;
use crate::settings::Settings;
use crate::tables::Tables;
use crate::target::Target;
use mg_words::{ErrorNumber, LAST_CONTEXT, LAST_TERMINATION, MEMBER_LIMIT};

impl Target {
    /// Returns whether the target is the context with this number.
    pub(crate) fn is_number(self, number: u32) -> bool
        ensures value { result ≡ is_number self number }
    {
        match self {
            Target::Number(context) => context == number,
            Target::Null | Target::New => false,
        }
    }
}

impl Tables {
    /// Returns the termination that a command names, or an error if it doesn't exist.
    pub(crate) fn named(&self, number: u32) -> Result<Record, ErrorNumber>
        ensures value { result ≡ named self.now number }
        ensures there { IfOk result (λ r. record_at self.now r.number ≡ Some r) }
        ensures slot { IfOk result (λ r. r.slot < self.now.limits.slots) }
    {
        self.record(number).ok_or(ErrorNumber::UnknownTermination)
    }

    fn there(&self, context: u32) -> Result<(), ErrorNumber>
        ensures value { result ≡ there self.now context }
    {
        match self.room(context) {
            Some(_) => Ok(()),
            None => Err(ErrorNumber::UnknownContext),
        }
    }

    /// Checks that a termination may enter the action's context. Fails for the null context, and for a context that
    /// doesn't exist.
    pub(crate) fn may_enter(&self, target: Target) -> Result<(), ErrorNumber>
        ensures value { result ≡ may_enter self.now target }
    {
        match target {
            Target::Null => Err(ErrorNumber::UnknownContext),
            Target::New => Ok(()),
            Target::Number(context) => self.there(context),
        }
    }

    fn may_have_members(&self, target: Target) -> Result<(), ErrorNumber>
        ensures value { result ≡ may_have_members self.now target }
    {
        match target {
            Target::Null => Err(ErrorNumber::NotInContext),
            Target::New => Err(ErrorNumber::UnknownContext),
            Target::Number(context) => self.there(context),
        }
    }

    /// Returns a member of the action's context, or an error if the termination isn't a member.
    pub(crate) fn member(&self, target: Target, number: u32) -> Result<Record, ErrorNumber>
        ensures value { result ≡ member self.now target number }
        ensures there { IfOk result (λ r. record_at self.now r.number ≡ Some r) }
        ensures slot { IfOk result (λ r. r.slot < self.now.limits.slots) }
    {
        let record = self.named(number)?;
        self.may_have_members(target)?;
        if target.is_number(record.context) {
            Ok(record)
        } else {
            Err(ErrorNumber::NotInContext)
        }
    }

    /// Returns the slot for a new termination, or an error if slots or termination numbers are exhausted.
    pub(crate) fn new_slot(&self) -> Result<u8, ErrorNumber>
        ensures value { result ≡ new_slot self.now }
        ensures free { IfOk result (λ slot. free_slot self.now ≡ Some slot) }
        ensures below { IfOk result (λ slot. slot < self.now.limits.slots) }
        ensures left { IfOk result (λ _. nat_le self.now.next_termination last_termination ≡ true) }
    {
        if self.next_termination <= u64::from(LAST_TERMINATION) {
            self.free_slot().ok_or(ErrorNumber::NoTerminationLeft)
        } else {
            Err(ErrorNumber::NoTerminationLeft)
        }
    }

    fn new_seat(&self, context: u32) -> Result<EntryPlace, ErrorNumber>
        ensures value { result ≡ new_seat self.now context }
        ensures can { IfOk result (CanEnter self.now) }
    {
        if self.members(context).len() >= MEMBER_LIMIT {
            return Err(ErrorNumber::ContextFull);
        }
        let seat = self.free_seat(context).ok_or(ErrorNumber::ContextFull)?;
        Ok(EntryPlace {
            context,
            seat,
            made: None,
        })
    }

    fn new_context(&self) -> Result<EntryPlace, ErrorNumber>
        ensures value { result ≡ new_context self.now }
        ensures can { IfOk result (CanEnter self.now) }
    {
        match empty_place(&self.rooms) {
            Some(room) if self.next_context <= u64::from(LAST_CONTEXT) => Ok(EntryPlace {
                context: self.next_context as u32,
                seat: 0,
                made: Some(room as u8),
            }),
            _ => Err(ErrorNumber::NoContextLeft),
        }
    }

    /// Returns the place where a termination enters the action's context. Returns an error if the context is full,
    /// can't be created, or is the null context. `may_enter` checks whether the context exists.
    pub(crate) fn new_place(&self, target: Target) -> Result<EntryPlace, ErrorNumber>
        ensures value { result ≡ new_place self.now target }
        ensures can { IfOk result (CanEnter self.now) }
    {
        match target {
            Target::Null => Err(ErrorNumber::UnknownContext),
            Target::New => self.new_context(),
            Target::Number(context) => self.new_seat(context),
        }
    }

    /// Returns a termination with a command's settings applied, or an error if the Local or Remote is not acceptable.
    pub(crate) fn with_settings(
        &self,
        settings: &Settings,
        old: Record,
    ) -> Result<Record, ErrorNumber>
        requires slot { old.slot < self.now.limits.slots }
        ensures value { result ≡ with_settings self.now.limits settings.now old }
        ensures same { IfOk result (λ r. (r.number ≡ old.number) × (r.slot ≡ old.slot)) }
    {
        let port = self.limits.slot_port(old.slot);
        let local = settings.local_after(old.local, self.limits.address, port)?;
        let remote = settings.remote_after(old.remote)?;
        Ok(Record {
            mode: settings.mode_after(old.mode),
            depth: settings.depth_after(old.depth),
            local,
            remote,
            ..old
        })
    }
}
