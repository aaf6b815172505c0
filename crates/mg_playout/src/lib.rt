//! The jitter buffer, called a play list: RTP frames in order of sequence number.
//!
//! In each tick of 20 ms, a play list plays one frame or silence.
//!
//! A [`Playout`] has a place for each of the next sequence numbers (RFC 3550, section 5.1); the number of places is its
//! depth. A frame is placed by its sequence number, no matter when it arrives. After the list starts, it waits half as
//! many ticks as it has places (rounded down), so that late and reordered frames can still find their places. Then each
//! tick plays the next frame, until none is left. A missing frame is replaced by the previous frame at half its level,
//! or by silence if the previous frame is missing, too.
//!
//! A frame starts the list if there is no sequence to continue: at the beginning, after the list runs empty (unless the
//! frame is late), or when the source changes. A frame also starts the list if its number is at least [`MAX_DROPOUT`]
//! ahead, or more than [`MAX_MISORDER`] behind.
//!
//! ```rust
//! let mut playout = Playout::new(alloc)?;
//! assert_eq!(rt; playout.place(99, 65535, first), Placed::Started);
//! assert_eq!(rt; playout.place(99, 0, second), Placed::Placed);
//! assert_eq!(rt; playout.tick(), Played::Silence);
//! assert_eq!(rt; playout.tick(), Played::Silence);
//! assert_eq!(rt; playout.tick(), Played::Frame(first));
//! assert_eq!(rt; playout.tick(), Played::Frame(second));
//! ```
//!
//! [`Playout::new`] allocates memory for [`MAX_DEPTH`] places and the last frame. No other call allocates.
//!
//! The rules are this project's own. `specs/Playout.antt` defines them; each call is one step. [`theorems`] states the
//! consequences.
#![tactic(auto)]

mod phase;
mod placed;
mod places;
mod played;
mod playout;
mod sequence;
mod source;
pub mod theorems;
mod turn;

pub use mg_words::{MAX_DEPTH, MIN_DEPTH};
pub use phase::Phase;
pub use placed::Placed;
// Contracts in other crates can name a play list only if the types of its fields are exported.
#[doc(hidden)]
pub use places::Places;
pub use played::Played;
pub use playout::Playout;
pub use sequence::{MAX_DROPOUT, MAX_MISORDER};
pub use source::Source;
