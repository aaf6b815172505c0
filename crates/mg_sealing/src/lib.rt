//! `mg_bridge seal` and `mg_bridge verify`: the former adds seals to a recording, and the latter checks the seals in a
//! recording or a journal.
//!
//! ```rust
//! let status = verify_input(alloc, &mut input, &mut output, &mut errors);
//! ```
//!
//! `mg_chain` defines seals. `specs/Sealed.antt` defines a recording with seals. `specs/Report.antt` defines the report
//! about seals and the exit status.
#![tactic(auto)]

mod report;
mod sealing;
mod series;
pub mod theorems;
mod verifying;

pub use crate::sealing::seal;
pub use crate::series::Series;
pub use crate::verifying::{verify_input, verify_text};
