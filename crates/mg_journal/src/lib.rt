//! Journals: files of lines. Each append adds all of its lines or none, unless the journal breaks.
//!
//! A program that appends each line before acting on it can repeat its actions after a crash:
//!
//! ```rust
//! let mut opening = Opening::new(file)?;
//! run_script(&mut opening)?;
//! let mut journal = opening.accept()?;
//! match journal.append(b"tick\n", Durability::Synced) {
//!     Ok(()) => run_tick(),
//!     Err(AppendFault::Refused) => {}
//!     Err(AppendFault::Broken) => return Err(journal_failed()),
//! }
//! ```
//!
//! An [`Opening`] reads the file's complete lines. It leaves the file unchanged until the caller accepts these lines.
//! Then it removes a partial last line, which a crash may have left.
//!
//! `specs/Text.antt` defines complete lines, and `specs/Journal.antt` defines the effect of [`Journal::append`]. The
//! proof of a [`FileJournal`] relies only on `specs/JournalFile.antt`, the specification of a [`JournalFile`]. A
//! [`MemoryFile`] is proved to satisfy it. A program has its own [`JournalFile`] for the system's files.
#![tactic(auto)]

mod append_fault;
mod call_counts;
mod durability;
mod extent;
mod failed_append;
mod fault_effect;
mod file_call;
mod file_journal;
mod injected_fault;
mod journal;
mod journal_file;
mod last_part;
mod memory_file;
mod opening;
mod optional;
mod writing;

pub use crate::append_fault::AppendFault;
pub use crate::durability::Durability;
pub use crate::fault_effect::FaultEffect;
pub use crate::file_call::FileCall;
pub use crate::file_journal::FileJournal;
pub use crate::injected_fault::InjectedFault;
pub use crate::journal::Journal;
pub use crate::journal_file::JournalFile;
pub use crate::memory_file::MemoryFile;
pub use crate::opening::Opening;
