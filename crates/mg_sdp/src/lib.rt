//! Session descriptions (SDP) in Local and Remote descriptors: parsing, choosing, writing.
//!
//! The formats follow RFC 4566 and RFC 3525, section 7.1.8.
//!
//! The content of a descriptor has one or more alternatives, or none if it is blank. [`read_sessions`] returns what
//! each of them offers. It accepts at most eight alternatives, and does not allocate. [`choose`] and [`choose_remote`]
//! return the address, port and law of the first offer that the gateway can accept. The gateway supports G.711 (RFC
//! 3551, payload types 0 and 8) in packets of 20 ms over RTP. [`write_local`] and [`write_remote`] write the choice:
//!
//! ```rust
//! let sessions = read_sessions(b"v=0\nc=IN IP4 $\nm=audio $ RTP/AVP 18 8 0\n")?;
//! let chosen = choose(&sessions, [127, 0, 0, 1], 30000);
//! assert_eq!(rt; chosen.map(|chosen| chosen.law), Some(Law::A));
//! ```
//!
//! In a Local, a `$` as the address, the port or the first supported format leaves the choice to the gateway. In a
//! Remote, an offer with such a `$` is not acceptable.
//!
//! [`theorems`] states that a written description reads back as itself, and that lines divide into alternatives in
//! exactly one way.
#![tactic(auto)]

mod alternative;
mod chosen;
mod connection;
mod fault;
mod fields;
mod lines;
mod media;
mod offer;
mod part;
mod reader;
mod sessions;
pub mod theorems;
mod writing;

pub use crate::chosen::{Chosen, choose, choose_remote};
pub use crate::fault::SdpFault;
pub use crate::offer::Offer;
pub use crate::reader::read_sessions;
pub use crate::sessions::Sessions;
pub use crate::writing::{TEXT_LIMIT, write_local, write_remote};
