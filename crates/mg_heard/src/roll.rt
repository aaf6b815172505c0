ghost use Rattle.std.specs.Prelude.{◌≡◌, ◌∷◌, ◌++◌, [], List, map, IfOk};
ghost use Rattle.mg_core.specs.Follow.{HasRun};
ghost use Rattle.mg_core.specs.Note.{Note, Happened, events_in};
ghost use Rattle.mg_core.specs.World.{World};
ghost use Rattle.mg_core.specs.aids.Stands.{StandsFor};
ghost use Rattle.mg_heard.specs.Came.{has_asked};
ghost use Rattle.mg_heard.specs.aids.Calling.{AreCalled, AreFor, IsNew, called};
ghost use Rattle.mg_heard.specs.declared.roll.Roll.{Roll as Called};

use crate::changes::only_control_changes_flows;
use crate::keys::{Keys, copy_of};
use crate::missing::Missing;
use crate::party::Party;
use crate::query::{Query, is_asked};
use crate::rule::Rule;
use mg_core::{Core, Event};
use std::alloc::{AllocError, Global};

/// Records whether the gateway has had the talker and the listener that a question or a rule names.
#[derive(Drop)]
pub struct Roll {
    pub talker: Option<Keys>,
    pub listener: Option<Keys>,
    pub missing: Missing,
}

/// Returns whether the gateway has a termination that a question with these keys asks about.
fn has_asked(keys: &Option<Keys>, core: &Core) -> bool
    ensures value { (w : World) → StandsFor core.now.state w → result ≡ has_asked keys.now w.gateway }
{
    for place in 0..core.terminations() {
        let party = Party::of(&core.termination(place));
        if is_asked(keys, party.number, party.at) {
            return true;
        }
    }
    false
}

impl Roll {
    /// Creates a roll for a talker and a listener that the gateway has not had yet. A talker or a listener that isn't
    /// named is not missing.
    fn of(alloc: Global, talker: &Option<Keys>, listener: &Option<Keys>) -> Result<Self, AllocError>
        ensures value { IfOk result (IsNew talker.now listener.now) }
    {
        let missing = Missing {
            talker: talker.is_some(),
            listener: listener.is_some(),
        };
        Ok(Roll {
            talker: copy_of(alloc, talker)?,
            listener: copy_of(alloc, listener)?,
            missing,
        })
    }

    /// Creates the roll for a query.
    pub fn of_query(alloc: Global, query: &Query) -> Result<Self, AllocError>
        ensures value { IfOk result (IsNew query.now.talker query.now.listener) }
    {
        Roll::of(alloc, &query.talker, &query.listener)
    }

    /// If the gateway has the talker or the listener, records that it isn't missing.
    fn call(&mut self, core: &Core)
        ensures value { (w : World) → StandsFor core.now.state w → self.new ≡ called w.gateway self.old }
    {
        let missing = self.missing;
        self.missing = Missing {
            talker: missing.talker && !has_asked(&self.talker, core),
            listener: missing.listener && !has_asked(&self.listener, core),
        };
    }
}

/// Updates each roll for the terminations that the gateway has.
pub(crate) fn call_all(rolls: &mut [Roll], core: &Core)
    ensures value { (w : World) → StandsFor core.now.state w → rolls.new ≡ map (called w.gateway) rolls.old }
{
    for roll in rolls.iter_mut() {
        roll.call(core);
    }
}

/// Updates each roll for the terminations that the gateway has after an event, unless the event can't change them.
pub(crate) fn call_after(rolls: &mut [Roll], event: &Event, core: &Core)
    ensures value { (start : List Called) (base : World) (notes : List Note) →
        AreCalled base (events_in notes) start rolls.old →
        HasRun base (notes ++ Happened event.now ∷ []) core.now.state →
        AreCalled base (events_in (notes ++ Happened event.now ∷ [])) start rolls.new }
{
    mg_core::theorems::outcomes_are_unique();
    only_control_changes_flows();
    if let Event::Control(_, _) = event {
        call_all(rolls, core);
    }
}

/// Creates a roll for each rule.
pub(crate) fn rolls_of(alloc: Global, rules: &[Rule]) -> Result<Vec<Roll>, AllocError>
    ensures value { IfOk result (λ rolls. AreFor rules.now rolls.items) }
{
    let mut rolls = Vec::new(alloc);
    for rule in rules {
        let roll = Roll::of(alloc, &rule.talker, &rule.listener)?;
        rolls.push(roll)?;
    }
    Ok(rolls)
}

/// Returns who is missing according to the only roll, or nobody if there isn't exactly one roll.
pub(crate) fn missing_in(rolls: &[Roll]) -> Missing
    ensures value { (roll : Called) → rolls.now ≡ roll ∷ [] → result ≡ roll.missing }
{
    match rolls {
        [roll] => roll.missing,
        _ => Missing {
            talker: false,
            listener: false,
        },
    }
}

/// Returns who is missing according to each roll.
pub(crate) fn missing_of(alloc: Global, rolls: &[Roll]) -> Result<Vec<Missing>, AllocError>
    ensures value { IfOk result (λ missing. missing.items ≡ map (λ r. r.missing) rolls.now) }
{
    let mut missing = Vec::new(alloc);
    for roll in rolls {
        missing.push(roll.missing)?;
    }
    Ok(missing)
}
