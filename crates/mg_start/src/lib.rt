//! How a gateway starts: with a new core, or from its journal.
//!
//! [`prepare`] creates a new gateway, or runs the events of its journal. If the journal was renewed, it begins with a
//! checkpoint, and the gateway is restored from that first. After the ports are bound, [`begin_journal`] skips the ticks
//! that the gateway missed, and starts appending:
//!
//! ```rust
//! let prepared = prepare(&system, &mut host, requested, &mut errors)?;
//! let Prepared { config, core, journal, reached } = prepared;
//! let mut gateway = Gateway { alloc, config, core, reached, service: requested.service };
//! let journal = begin_journal(&system, &mut host, &mut gateway, journal, &mut errors)?;
//! ```
//!
//! [`FoundJournal`] is a journal before anything is appended to it. If a gateway can't start, the fault is reported,
//! and the result is the program's exit status.
//!
//! `specs/Start.antt` defines how a gateway starts. `specs/Journal.antt` defines the text that a gateway finds in its
//! journal, and the lines that it appends.
#![tactic(auto)]

mod beginning;
mod faults;
mod found_journal;
mod front;
mod gateway;
mod history;
mod journal_fault;
mod journal_reader;
mod kept_journal;
mod prepared;
mod reading;
mod renewed;
mod requested;
mod restored;
mod resumed;
mod start;
pub mod theorems;

pub use crate::beginning::begin_journal;
pub use crate::found_journal::FoundJournal;
pub use crate::gateway::Gateway;
pub use crate::journal_fault::JournalFault;
pub use crate::kept_journal::KeptJournal;
pub use crate::prepared::{Prepared, prepare};
pub use crate::requested::Requested;
