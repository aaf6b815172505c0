//! The commands on one termination: all checks first, then all changes.

ghost use Rattle.std.specs.Prelude.{◌≡◌, ◌<◌, Some};
ghost use Rattle.mg_rooms.specs.Registry.{record_at};
ghost use Rattle.mg_rooms.specs.Changes.{removed, left};
ghost use Rattle.mg_rooms.specs.Outcome.{add, modify, move_to};
ghost use Rattle.mg_rooms.specs.aids.Gives.{Gives};

use crate::member::Member;
use crate::record::Record;
use crate::settings::Settings;
use crate::tables::Tables;
use crate::target::Target;
use mg_words::ErrorNumber;

impl Tables {
    /// Creates a termination in the action's context.
    #[tactic(auto, unfolding(crate::specs::Outcome::add))]
    pub(crate) fn add(&mut self, target: Target, settings: &Settings) -> Result<Record, ErrorNumber>
        ensures outcome { Gives (λ r. r) self.old self.new result (add self.old target settings.now) }
    {
        self.may_enter(target)?;
        let slot = self.new_slot()?;
        let place = self.new_place(target)?;
        let fresh = Record::fresh(self.next_number(), slot, place);
        let added = self.with_settings(settings, fresh)?;
        self.insert(added);
        self.enter(place, added.number);
        Ok(added)
    }

    /// Changes a member of the action's context.
    #[tactic(auto, unfolding(crate::specs::Outcome::modify))]
    pub(crate) fn modify(
        &mut self,
        target: Target,
        number: u32,
        settings: &Settings,
    ) -> Result<Record, ErrorNumber>
        ensures outcome { Gives (λ r. r) self.old self.new result (modify self.old target number settings.now) }
    {
        let old = self.member(target, number)?;
        let changed = self.with_settings(settings, old)?;
        self.replace(changed);
        Ok(changed)
    }

    /// Moves an existing termination from its context to the action's context.
    #[tactic(auto, unfolding(crate::specs::Outcome::move_to))]
    pub(crate) fn move_to(
        &mut self,
        target: Target,
        from: Member,
        settings: &Settings,
    ) -> Result<Record, ErrorNumber>
        requires there { record_at self.old from.record.number ≡ Some from.record }
        requires slot { from.record.slot < self.old.limits.slots }
        ensures outcome { Gives (λ r. r) self.old self.new result
            (move_to self.old target from.record.number settings.now) }
    {
        let old = from.record;
        if target.is_number(old.context) {
            return Err(ErrorNumber::AlreadyInContext);
        }
        self.may_enter(target)?;
        let place = self.new_place(target)?;
        let moved = self.with_settings(settings, old.at_place(place))?;
        self.replace(moved);
        self.enter(place, moved.number);
        self.leave(from);
        Ok(moved)
    }

    /// Removes a termination from the gateway and from its context.
    pub(crate) fn end(&mut self, old: Member)
        ensures value { self.new ≡ left (removed self.old old.record.number) old.record.context old.record.number }
    {
        self.remove(old.record);
        self.leave(old);
    }
}
