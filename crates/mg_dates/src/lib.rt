//! Dates in a journal, and the number of ticks missed since the journal's last line.
//!
//! A [`DatedJournal`] adds dates and seals (`mg_chain`) to the lines that it appends to a journal. [`Timeline`] reads
//! the dates while a journal is replayed, so that the gateway can skip the ticks that it missed:
//!
//! ```rust
//! let mut timeline = Timeline::new();
//! let mut core = resume(alloc, config, &mut opening, &mut timeline)?;
//! core.skip(timeline.missed(Date::now(&rt)?));
//! ```
//!
//! A date is a comment with the time of day, such as `# time 2026-11-27T14:03:20.5Z` (RFC 3339). It says when the
//! message or the ticks in the following lines happened. A [`Zone`] writes dates as text in a time zone.
#![tactic(auto)]

mod agreement;
mod date;
mod date_text;
mod dated_journal;
mod timeline;
mod zone;

pub use crate::agreement::Agreement;
pub use crate::date::{Date, TimeText};
pub use crate::date_text::date_in;
pub use crate::dated_journal::DatedJournal;
pub use crate::timeline::Timeline;
pub use crate::zone::Zone;
