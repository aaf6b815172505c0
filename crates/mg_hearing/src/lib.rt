//! The output of `mg_bridge heard`.
//!
//! ```rust
//! let status = heard(&mut host, &rt, alloc, &request, &mut input, &mut output, &mut errors);
//! ```
//!
//! The script is a journal or a recording. Its first line states the configuration of its gateway. [`heard`] runs the
//! script with the same configuration, and returns the program's exit status.
//!
//! `mg_bridge replay` also reads scripts that begin with a checkpoint: [`begins_with_checkpoint`] looks at the input
//! without reading it ([`Ahead`]), and [`resume`] makes the gateway that goes on from there.
//!
//! `specs/Heard.antt` defines the output and the exit status. `specs/Page.antt` defines a page (HTML).
//! `specs/Absence.antt` defines the messages about terminations that the gateway never had.
#![tactic(auto)]

mod absence;
mod ahead;
mod alarm;
mod answering;
mod asking;
mod audibility;
mod back;
mod beginning;
mod checkpoint;
mod digest;
mod escaping;
mod faults;
mod first_line;
mod front;
mod hashed;
mod look_ahead;
mod names_fault;
mod names_file;
mod opening;
mod origin;
mod page_text;
mod paging;
mod parts;
mod question;
mod resume_fault;
mod resuming;
mod script_fault;
mod script_title;
mod sources;
mod start;
mod starting;
mod styling;
mod talker_question;
mod text_key;
mod watching;
mod words;

pub use crate::ahead::Ahead;
pub use crate::answering::heard;
pub use crate::audibility::audible;
pub use crate::look_ahead::LookAhead;
pub use crate::resume_fault::ResumeFault;
pub use crate::resuming::{Resumed, begins_with_checkpoint, resume};
pub use crate::watching::watch;
