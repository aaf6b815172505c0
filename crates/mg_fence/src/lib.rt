//! Fencing tokens: a controller that has been replaced can't command the gateway with numbered messages any more.
//!
//! The name of a message's sender may begin with a number, as in `MEGACO/1 <17.lobby.example>`. A [`Fence`] stores the
//! number at which it began or, if higher, the highest number of a message that has been run since:
//!
//! ```rust
//! let number = number_in(bytes, &parsed);
//! if fence.passes(bytes, number) {
//!     // The message is run.
//!     fence = fence.raised_by(number);
//! }
//! ```
//!
//! A [`FenceReader`] reads the number that a journal has reached.
#![tactic(auto)]

mod fence;
mod fence_reader;
mod number;

pub use crate::fence::{ACKNOWLEDGEMENT, Fence, HEARTBEAT};
pub use crate::fence_reader::FenceReader;
pub use crate::number::number_in;
