//! A text buffer of fixed capacity, and the numbers and addresses that are written into it.
//!
//! [`Bytes::new`] allocates the whole buffer, and no other call allocates:
//!
//! ```rust
//! let mut text = Bytes::new(alloc, 64)?;
//! text.push(b"control ");
//! write_address([192, 0, 2, 7], &mut text);
//! assert_eq!(rt; text.as_slice(), b"control 192.0.2.7".as_slice());
//! ```
//!
//! A part must fit in the room that remains. `specs/Bytes.antt` defines the text and the room after each call.
#![tactic(auto)]

mod bytes;
mod writing;

pub use crate::bytes::Bytes;
pub use crate::writing::{PORT_LIMIT, write_address, write_port};
