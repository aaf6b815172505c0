//! Replies in text encoding (Megaco, RFC 3525, Annex B): collected, then written.
//!
//! A [`Reply`] collects items. It allocates all its memory in [`Reply::new`]; its text goes to a buffer of the crate
//! `mg_bytes`:
//!
//! ```rust
//! let mut reply = Reply::new(alloc)?;
//! let mut text = Bytes::new(alloc, REPLY_LIMIT)?;
//! reply.start(7);
//! reply.put(Item::Command(CommandWord::AuditValue, Term::root(), Outcome::Failed(ErrorNumber::NotServed)));
//! reply.put(Item::Action(ContextId::Null));
//! assert!(rt; write_reply(&reply, &mut text).is_ok());
//! ```
//!
//! Put the end of an action after its items, which may be in any order: the text lists the topology, then commands,
//! then errors. A reply whose only item is an [`Item::Fault`] rejects the whole request. [`write_reply`] returns
//! [`TooLong`], and writes nothing, if the reply had no room for an item or if its text would exceed 16,000 bytes.
//! [`theorems`] states properties of replies.
#![tactic(auto)]

mod action_writing;
mod control;
mod draft;
mod entry_kind;
mod item;
mod media;
mod outcome;
mod parts_writing;
mod reply;
mod rtp_name;
pub mod theorems;
mod writing;

pub use crate::control::Control;
pub use crate::item::Item;
pub use crate::media::Media;
pub use crate::outcome::{Outcome, Parts};
pub use crate::reply::{ITEM_LIMIT, Reply};
pub use crate::rtp_name::RtpName;
pub use crate::writing::{HEAD_LIMIT, TooLong, write_error, write_head, write_reply};
pub use mg_words::{Association, CommandWord, ContextId, ErrorNumber, Mode, Stats, Term};
