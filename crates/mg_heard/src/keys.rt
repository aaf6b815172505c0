ghost use Rattle.std.specs.Prelude.{◌≡◌, IfOk, Some};
ghost use Rattle.std.specs.List.{list_any};
ghost use Rattle.mg_heard.specs.Asked.{AreKeys};
ghost use Rattle.mg_heard.specs.Query.{is_named};
ghost use Rattle.mg_heard.specs.declared.asked.Asked.TheVariants as asks;

use crate::asked::Asked;
use crate::name::{Name, NameText};
use crate::name_fault::NameFault;
use crate::names::Names;
use crate::party_name::PartyName;
use mg_core::Peer;
use std::alloc::{AllocError, Global};
use std::marker::Model;

/// Keys that select terminations. A termination has to match only one of them.
#[derive(Drop)]
pub struct Keys {
    keys: Vec<PartyName>,
}

impl Model for Keys {
    ghost use Rattle.std.specs.Prelude.{List};
    ghost use Rattle.mg_heard.specs.declared.party_name.PartyName.{PartyName};

    ghost Value = { List PartyName };

    ghost view = { λ k. k.keys.items };
}

impl Keys {
    /// Returns whether one of the keys applies to a termination with this number and this Remote.
    pub(crate) fn apply_to(&self, number: u32, at: Option<Peer>) -> bool
        ensures value { result ≡ list_any (λ k. is_named k number at) self.now }
    {
        self.keys.iter().any(|key| key.names(number, at))
    }
}

/// Copies keys.
pub(crate) fn copy_of(alloc: Global, keys: &Option<Keys>) -> Result<Option<Keys>, AllocError>
    ensures value { IfOk result (λ copy. copy ≡ keys.now) }
{
    match keys {
        Some(keys) => Ok(Some(Keys {
            keys: Vec::from_slice(alloc, keys.keys.as_slice())?,
        })),
        None => Ok(None),
    }
}

/// Returns the keys of the lines with this name. Fails if no line has this name, or if an allocation fails.
fn keys_named(alloc: Global, name: &Name, names: &Names) -> Result<Option<Keys>, NameFault>
    ensures value { IfOk result (AreKeys names.now (Some (asks.Name name.now))) }
{
    let Ok(keys) = names.keys_with(alloc, name.as_slice()) else {
        return Err(NameFault::NoMemory);
    };
    if keys.is_empty() {
        let mut text = NameText::new();
        let _ = text.try_extend_from_slice(name.as_slice());
        return Err(NameFault::Unknown(text));
    }
    Ok(Some(Keys { keys }))
}

/// Returns the keys that a question asks about, or `None` for any termination. Fails if no line has the name that the
/// question gives, or if an allocation fails.
pub(crate) fn keys_for(
    alloc: Global,
    asked: &Option<Asked>,
    names: &Names,
) -> Result<Option<Keys>, NameFault>
    ensures value { IfOk result (AreKeys names.now asked.now) }
{
    match asked {
        Some(Asked::Key(key)) => match Vec::from_slice(alloc, &[*key]) {
            Ok(keys) => Ok(Some(Keys { keys })),
            Err(_) => Err(NameFault::NoMemory),
        },
        Some(Asked::Name(name)) => keys_named(alloc, name, names),
        None => Ok(None),
    }
}
