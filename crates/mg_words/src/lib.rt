//! The protocol's keywords, names, numbers and errors, and the gateway's limits.
//!
//! This crate has types for modes, associations, commands, contexts, terminations and errors (Megaco, RFC 3525), each
//! with its text. Another type holds a termination's counters. The crate also has parsers for the numbers, ports and
//! IPv4 addresses in control messages, session descriptions and scripts.
//!
//! Each parser takes a whole string and returns the string's value, or `None` if it has no value. Leading zeros are
//! allowed; signs and spaces are not:
//!
//! ```rust
//! assert_eq!(rt; port_of(b"02945"), Some(2945));
//! assert_eq!(rt; address_of(b"127.0.0.1"), Some([127, 0, 0, 1]));
//! assert_eq!(rt; Term::rtp(7).as_slice(), b"RTP/7".as_slice());
//! ```
#![tactic(auto)]

mod address;
mod association;
mod command_word;
mod context_id;
mod error_number;
mod limits;
mod mode;
mod number;
mod parts;
mod peer;
mod stats;
mod term;
mod word_byte;

pub use crate::address::{ADDRESS_LIMIT, address_of, address_text};
pub use crate::association::Association;
pub use crate::command_word::CommandWord;
pub use crate::context_id::{ContextId, context_id_of};
pub use crate::error_number::{ERROR_LIMIT, ErrorNumber};
pub use crate::limits::{
    ALTERNATIVE_LIMIT, COMMAND_LIMIT, CONTEXT_LIMIT, FIRST_DEPTH, FRAME_MS, KEPT_LIMIT,
    LAST_CONTEXT, LAST_TERMINATION, MAX_DEPTH, MEMBER_LIMIT, MESSAGE_LIMIT, MIN_DEPTH, NAME_LIMIT,
    REPLY_LIMIT, REQUEST_LIMIT, SAMPLES, SENDER_LIMIT, TERMINATION_LIMIT, constants_are_limits,
    limits_fit,
};
pub use crate::mode::{Mode, mode_listens, mode_talks};
pub use crate::number::{number_of, port_of, uint16_of, version_in_digits};
pub use crate::parts::{after_prefix, cut};
pub use crate::peer::Peer;
pub use crate::stats::Stats;
pub use crate::term::{Term, is_term};
pub use crate::word_byte::is_word_byte;
