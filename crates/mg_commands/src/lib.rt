//! Runs the transactions of a controller and collects their replies.
//!
//! See RFC 3525, section 8.
//!
//! A [`Request`](mg_text::Request) refers to parts of its message by spans, so [`transaction`] takes the message too.
//! This function runs the commands on an [`Engine`](mg_engine::Engine), puts their outcomes into a
//! [`Reply`](mg_reply::Reply), and does not allocate:
//!
//! ```rust
//! transaction(&mut engine, source, &request, &mut reply);
//! assert!(rt; write_reply(&reply, &mut text).is_ok());
//! ```
//!
//! Commands are tried in order, action by action, up to the first non-optional command that fails. Commands that were
//! not tried are not reported. Except for a command on `*`, a refused command leaves the engine unchanged. An action's
//! Topology and ContextAudit are processed after its commands, unless a command failed and ended the action.
//!
//! A Modify, Subtract or AuditValue on `*` (RFC 3525, section 6.2.2) is tried on each current member of the action's
//! context, in order of entry. The reply has an item for each member. An error for one member does not stop the others,
//! but the command then counts as failed. If the command cannot be tried at all, the reply has one item, named `*`.
//! That happens, for example, if a descriptor is faulty or the context has no members.
//!
//! A command marked `O-` (section 8.2.2) is optional: if it fails, the reply reports its error, and the next commands
//! are still tried. An action that is rejected as a whole always ends the request, even if its commands are optional.
//!
//! [`Kept`] stores the replies that answer retransmissions.
#![tactic(auto)]

mod action_fault;
mod checks;
mod command_parameters;
mod context_audit;
mod context_properties;
mod descriptors;
mod findings;
mod members;
mod name;
mod named_member;
mod opening;
mod outcomes;
mod part;
mod progress;
mod repeats;
mod reply_descriptors;
mod reply_parts;
mod served;
mod support;
pub mod theorems;
mod transactions;

pub use crate::transactions::transaction;
pub use mg_kept::Kept;
