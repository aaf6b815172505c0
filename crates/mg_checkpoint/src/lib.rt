//! Checkpoints: the state of a gateway as text, with which another gateway goes on.
//!
//! [`save`] writes lines that anybody can read, and [`restore`] makes a gateway from them:
//!
//! ```rust
//! let mut text = Vec::new(alloc);
//! save(&core, &mut text)?;
//! let restored = restore(alloc, config, text.as_slice())?;
//! ```
//!
//! A checkpoint has the terminations, the contexts, who may not hear whom, what each termination has sent, the kept
//! replies, the next numbers, and the counts of control datagrams and ticks. It has no speech: a restored gateway has
//! received no RTP datagram. Its next packets continue the streams of the saved gateway.
//!
//! ```text
//! checkpoint after 2 control datagrams and 120 ticks
//! next RTP/3 context 2
//! context 1 has RTP/1 RTP/2 in room 0
//! termination RTP/1 context 1 slot 0 seat 0 mode SendReceive depth 4 local none remote at 192.0.2.1:4000 PCMA ..
//! listener RTP/1 has RTP/2 muted
//! termination RTP/2 context 1 slot 1 seat 1 mode ReceiveOnly depth 4 local none remote none timestamp 19040 ..
//! reply 1 to [192.0.2.9]:2944 Reply=1{Context=1{Add=RTP/1,Add=RTP/2}}
//! reply 2 to [192.0.2.9]:2944 Reply=2{Context=1}
//! end after 8 lines
//! ```
//!
//! The line of a termination ends with its media: the timestamp of its last tick, the sequence number of its next
//! packet, the packets and octets that it has sent, and whether its last tick sent a packet. The members of a context
//! are in order of entry. A reply's text has the escapes of a script line. Checkpoint lines and script lines begin with
//! different words.
//!
//! [`restore`] saves the gateway that it has made, and compares the bytes with the text. So it returns a gateway only
//! if the text is exactly what that gateway writes. Its contract says that this gateway represents every world with
//! this checkpoint and the given configuration, except for the speech (`specs/Checkpoint.antt`). [`theorems`] states
//! that equal texts say the same, and `specs/Said.antt` has what they say.
#![tactic(auto)]

mod comparing;
mod context_line;
mod draft;
mod extent;
mod fault;
mod lines_reading;
mod lines_writing;
mod listener_line;
mod parts_reading;
mod parts_writing;
mod rebuilding;
mod reply_line;
mod restoring;
mod saving;
mod termination_line;
pub mod theorems;

pub use crate::extent::{begins_checkpoint, ends_checkpoint};
pub use crate::fault::RestoreFault;
pub use crate::restoring::restore;
pub use crate::saving::save;
