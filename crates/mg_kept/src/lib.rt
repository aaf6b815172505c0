//! Keeps replies, to answer retransmitted requests without running them again.
//!
//! See RFC 3525, section 8.2 and annex D.1.
//!
//! [`Kept`] stores the text of each reply under the request's number and the sender's name (ignoring case). At most 32
//! replies are kept; when there are 32, a new reply takes the place of the oldest. A sender that has received replies
//! acknowledges their numbers, and the replies are dropped:
//!
//! ```rust
//! let mut kept = Kept::new(alloc)?;
//! kept.keep(b"<mgc.example>:2945", 7, b"Reply=7{Context=1}");
//! assert_eq!(rt; kept.find(b"<MGC.EXAMPLE>:2945", 7), Some(b"Reply=7{Context=1}".as_slice()));
//! kept.ack(b"<mgc.example>:2945", 7, 9);
//! assert_eq!(rt; kept.find(b"<mgc.example>:2945", 7), None);
//! ```
//!
//! [`Kept::new`] allocates memory for all replies; no other call allocates. `specs/KeptReplies.antt` has the rules, and
//! [`theorems`] states the consequences.
#![tactic(auto)]

mod entry;
mod kept;
pub mod theorems;

pub use crate::kept::Kept;
