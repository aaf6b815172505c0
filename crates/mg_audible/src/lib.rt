//! When a talker was audible: the intervals in which the talker's speech changed what the gateway sent to a listener.
//!
//! [`hear_talker`] runs a full recording on two gateways. One gateway receives all events. The other gateway receives
//! all but the talker's speech, which is the RTP datagrams that arrive at the talker's port. If a tick's packets to a
//! listener differ, the talker was audible to that listener:
//!
//! ```rust
//! let (sink, has_rtp) = hear_talker(alloc, gateways, &mut input, 3, sink)?;
//! ```
//!
//! [`write_audible`] writes a line for each audible interval and each gap that a query selects.
//!
//! If an interval contains a tick, the two gateways send the listener different bytes in that tick, and the talker's
//! speech reaches the listener (`specs/Laws.antt`). If the bytes are equal, the talker could not be heard, was silent,
//! or spoke without an effect on the bytes, for example too quietly.
//!
//! Dates and gaps come from the script's comments, as in [`mg_heard`].
#![tactic(auto)]

mod audible;
mod differences;
mod gateways;
mod hearing;
mod pair;
mod ports;
mod reporting;
mod talker_query;
mod telling;
pub mod theorems;

pub use crate::gateways::Gateways;
pub use crate::hearing::hear_talker;
pub use crate::reporting::write_audible;
pub use crate::talker_query::TalkerQuery;
