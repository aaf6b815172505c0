//! Who hears whom among the members of one context.
//!
//! Each member of a context has a seat, a number below [`SEATS`]. A [`Topology`] records which seats are held and, for
//! each pair, the last word on that pair. The last word is the last [`Triple`] of a topology descriptor (RFC 3525,
//! section 7.1.18) that has mentioned the pair since both members entered. Without a last word, the two hear each
//! other. So a newcomer hears everyone and is heard by everyone, whatever triples named its seat before; that is this
//! project's own rule.
//!
//! ```rust
//! let mut topology = Topology::new();
//! topology.enter(0);
//! topology.enter(1);
//! topology.apply(&[Triple {
//!     first: mask::of_seat(0),
//!     second: mask::of_seat(1),
//!     association: Association::Oneway,
//! }])?;
//! assert!(rt; topology.hears(0, 1));
//! assert!(rt; !topology.hears(1, 0));
//! ```
//!
//! A topology keeps bits, but no history. So its contracts hold for every list of edits that it represents, before and
//! after a call (`StandsFor` in `specs/aids/Topology.antt`). `specs/Edits.antt` defines what a list of edits means,
//! looking back from the newest edit. [`theorems`] states the consequences.
//!
//! Sets of seats are bit masks. Only functions in [`mask`] touch their bits.
#![tactic(auto)]

pub mod mask;
mod overlap;
mod seats;
pub mod theorems;
mod topology;
mod triple;

pub use mask::{Mask, SEATS};
pub use mg_words::Association;
pub use overlap::Overlap;
pub use seats::Seats;
pub use topology::Topology;
pub use triple::Triple;
