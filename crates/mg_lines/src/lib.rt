//! Line-based text I/O: chunked reads and complete writes.
//!
//! ```rust
//! let mut buffer = [0; READ_SIZE];
//! while let Some(n) = read_some(&mut input, &mut buffer)? {
//!     write_whole(&buffer[..n], &mut output)?;
//! }
//! ```
//!
//! Contracts apply to readers whose remaining input is known, and to writers whose content is known. The input of an
//! in-memory reader and the content of an in-memory writer are always known. `specs/Lines.antt` defines what a line is.
#![tactic(auto)]

mod line;
mod read_failed;
mod reading;
mod write_failed;
mod writing;

pub use crate::line::without_return;
pub use crate::read_failed::ReadFailed;
pub use crate::reading::{READ_SIZE, read_some};
pub use crate::write_failed::WriteFailed;
pub use crate::writing::write_whole;
