//! A writer that never waits for its reader, except in [`Outlet::finish`].
//!
//! An [`Outlet`] keeps written text in a queue, and passes it on to a [`Pipe`] only while the pipe is ready. So a slow
//! reader of standard output can't delay the gateway's ticks:
//!
//! ```rust
//! let mut output = Outlet::watching(&rt, rt.alloc(), rt.stdout(), 64 << 20, Overflow::End)?;
//! output.write_all(line)?;
//! output.flush()?;
//! ```
//!
//! If the reader is so slow that the queue is full, text is dropped; [`Overflow`] determines which text. Flush often,
//! for example after each tick, and call [`Outlet::finish`] at the end.
//!
//! `specs/Outlet.antt` defines the effect of each call. Written text joins the queue, unless it is dropped. Bytes move
//! from the front of the queue to the pipe, as long as the pipe is ready. [`theorems`] states the consequences.
#![tactic(auto)]

mod outlet;
mod outlet_fault;
mod overflow;
mod passing;
mod pipe;
mod readiness;
mod system_pipe;
pub mod theorems;

pub use crate::outlet::Outlet;
pub use crate::outlet_fault::OutletFault;
pub use crate::overflow::Overflow;
pub use crate::passing::CHUNK;
pub use crate::pipe::Pipe;
pub use crate::system_pipe::SystemPipe;
