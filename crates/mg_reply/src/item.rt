ghost use Rattle.std.specs.Prelude.{◌≡◌};
ghost use Rattle.mg_reply.specs.Entries.{is_of};
ghost use Rattle.mg_reply.specs.aids.Room.{action_id};

use crate::entry_kind::EntryKind;
use crate::outcome::Outcome;
use crate::rtp_name::RtpName;
use mg_words::{Association, CommandWord, ContextId, ErrorNumber, Term};

/// A part of a reply.
#[derive(Drop)]
pub enum Item {
    /// Two terminations of the action's context, and who hears whom.
    Triple(RtpName, RtpName, Association),
    /// A command, the name of its termination, and its outcome.
    Command(CommandWord, Term, Outcome),
    /// An error of an action or, if this is the only item, of the whole request.
    Fault(ErrorNumber),
    /// The end of an action in this context. The action consists of the items since the end of the previous action.
    /// They are written in the order topology, commands, errors, regardless of the order in which they were added.
    Action(ContextId),
}

impl Item {
    /// Returns whether the item is written as an entry of this kind.
    pub(crate) fn is_of(&self, kind: EntryKind) -> bool
        ensures value { result ≡ is_of kind self.now }
    {
        match self {
            Item::Triple(..) => kind == EntryKind::Triples,
            Item::Command(..) => kind == EntryKind::Commands,
            Item::Fault(_) => kind == EntryKind::Faults,
            Item::Action(_) => false,
        }
    }

    /// Returns the context of the action that ends with this item, or `None` if no action ends with it.
    pub(crate) fn action_id(&self) -> Option<ContextId>
        ensures value { result ≡ action_id self.now }
    {
        match self {
            Item::Action(id) => Some(*id),
            Item::Triple(..) | Item::Command(..) | Item::Fault(_) => None,
        }
    }
}
