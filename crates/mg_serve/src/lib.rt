//! A gateway on UDP ports, driven by lines or by a clock.
//!
//! The command `poll` receives the datagrams that arrived at the ports (at most 64 from each), and `tick` advances by
//! 20 ms and sends the packets. `stats` prints the counts, and `quit` ends the run. The program that writes the lines
//! acts as the gateway's clock.
//!
//! ```rust
//! let start = Start { alloc, setup: &setup, core, title: None };
//! let counts = serve::<(_, _, _), _>(start, &mut ports, &mut input, &mut output, &mut monitor)?;
//! ```
//!
//! [`serve`] is proved for any [`Ports`](mg_ports::Ports). On return, the complete lines that it read and their effects
//! form a session (`specs/Session.antt`). So it reads the ports in order, and sends each answer and each packet once.
//! It keeps a datagram from the gateway's core only for a reason that the definition names: the datagram came from a
//! stranger or didn't pass the fence, memory ran out, or the journal failed. [`theorems`] goes further: a session sends
//! what a run of its events sends, and reading its recording back yields the same events. [`journal_theorems`] states
//! what a journal preserves, even after a renewal.
#![tactic(auto)]

mod clock_driver;
mod command;
mod fencing;
mod form;
mod incoming;
mod journal_report;
pub mod journal_theorems;
mod journaling;
mod line;
mod line_driver;
mod monitor;
mod output;
mod peripherals;
mod printer;
mod renewal;
mod server;
mod serving;
mod setup;
mod start;
mod terms;
pub mod theorems;
mod tick_report;
mod timer;

// A theorem can name a command in a contract only if the type is exported.
#[doc(hidden)]
pub use crate::command::Command;
// A theorem can name the output's form in a contract only if the type is exported.
#[doc(hidden)]
pub use crate::form::Form;
// A theorem can name a fence's state in a contract only if the type is exported.
#[doc(hidden)]
pub use crate::fencing::Fencing;
pub use crate::journal_report::JournalReport;
pub use crate::monitor::Monitor;
pub use crate::peripherals::Peripherals;
pub use crate::serving::{serve, serve_by_clock};
pub use crate::setup::Setup;
pub use crate::start::Start;
pub use crate::tick_report::TickReport;
pub use crate::timer::Timer;
pub use mg_clock::Timing;
pub use mg_core::{Config, Core, Counts, RunFault};
pub use mg_journal::Durability;
