//! The parser for control messages in text encoding (Megaco, RFC 3525, Annex B).
//!
//! [`read`] parses the bytes of a datagram as a [`Message`], or returns why it could not. The tree refers to text by
//! its span in the source, and doesn't copy it. The crate `mg_reply` writes replies:
//!
//! ```rust
//! let source = b"MEGACO/1 [127.0.0.1]:2945 Transaction=1{Context=-{AuditValue=ROOT}}".as_slice();
//! let message = read(alloc, source)?;
//! assert_eq!(rt; message.sender.text(source), b"[127.0.0.1]:2945".as_slice());
//! ```
//!
//! A message is read completely or not at all. The tree keeps requests and acknowledgements in order, including
//! duplicates. Replies, Pending items and an Error body are parsed but not kept.
#![tactic(auto)]

mod actions;
mod body;
mod command;
mod command_head;
mod commands;
mod context_properties;
mod context_property;
mod controls;
mod descriptor;
mod descriptors;
mod fault;
mod from_word;
mod group;
mod head;
mod keyword;
mod lists;
mod marks;
mod media;
mod message;
mod reading;
mod request;
mod scanning;
mod sender;
mod sequence;
mod streams;
pub mod theorems;
mod tree_list;
mod words;

pub use crate::body::{Body, MessageItem, Range};
pub use crate::command::Command;
pub use crate::context_property::{ContextProperty, ContextWord, NamedTriple};
pub use crate::descriptor::{AuditWord, Descriptor, OtherWord};
pub use crate::fault::ReadFault;
pub use crate::media::{ControlPart, MediaPart, PropertyValue, StreamPart};
pub use crate::message::Message;
pub use crate::reading::read;
pub use crate::request::{Action, Request};
pub use crate::tree_list::TreeList;
pub use mg_words::{
    Association, CommandWord, ContextId, ERROR_LIMIT, ErrorNumber, Mode, REPLY_LIMIT,
    REQUEST_LIMIT, Term,
};
