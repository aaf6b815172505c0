ghost use Rattle.std.specs.Prelude.{◌≡◌, ◌≤◌, ◌++◌, ◌∷◌, [], length, IfOk, OnOk};
ghost use Rattle.mg_heard.specs.Names.{keys_with, name_of};

use crate::name::NAME_ROOM;
use crate::named::Named;
use crate::party_name::PartyName;
use mg_core::Peer;
use std::alloc::{AllocError, Global};
use std::marker::Model;

/// The names of terminations, in the order of a file's lines. The first line that applies to a termination names it.
#[derive(Drop)]
pub struct Names {
    lines: Vec<Named>,
}

impl Model for Names {
    ghost use Rattle.std.specs.Prelude.{List};
    ghost use Rattle.mg_heard.specs.declared.named.Named.{Named};

    ghost Value = { List Named };

    ghost view = { λ n. n.lines.items };
}

/// Returns the name of a termination, or an empty text if no line applies to it.
fn name_among(number: u32, at: Option<Peer>, lines: &[Named]) -> &[u8]
    ensures value { result.now ≡ name_of lines.now number at }
    ensures short { length result.now ≤ NAME_ROOM }
{
    for place in 0..lines.len() {
        let line = &lines[place];
        if line.key.names(number, at) {
            return line.name.as_slice();
        }
    }
    b""
}

/// Returns the keys of the lines with this name.
fn keys_with(alloc: Global, name: &[u8], lines: &[Named]) -> Result<Vec<PartyName>, AllocError>
    ensures value { IfOk result (λ keys. keys.items ≡ keys_with name.now lines.now) }
{
    let mut keys = Vec::new(alloc);
    for line in lines {
        if line.name.as_slice() != name {
            continue;
        }
        keys.push(line.key)?;
    }
    Ok(keys)
}

impl Names {
    /// Creates an empty list of names.
    pub fn none(alloc: Global) -> Names
        ensures value { result ≡ [] }
    {
        Names {
            lines: Vec::new(alloc),
        }
    }

    /// Adds a line at the end.
    pub fn push(&mut self, line: Named) -> Result<(), AllocError>
        ensures value { OnOk result (self.new ≡ self.old ++ line ∷ []) }
    {
        self.lines.push(line)?;
        Ok(())
    }

    /// Returns the name of a termination with this number and this Remote, or an empty text if no line applies to it.
    pub(crate) fn name_of(&self, number: u32, at: Option<Peer>) -> &[u8]
        ensures value { result.now ≡ name_of self.now number at }
        ensures short { length result.now ≤ NAME_ROOM }
    {
        name_among(number, at, self.lines.as_slice())
    }

    /// Returns the keys of the lines with this name.
    pub(crate) fn keys_with(&self, alloc: Global, name: &[u8]) -> Result<Vec<PartyName>, AllocError>
        ensures value { IfOk result (λ keys. keys.items ≡ keys_with name.now self.now) }
    {
        keys_with(alloc, name, self.lines.as_slice())
    }
}
