//! Who could hear whom, and when: the intervals in which a talker's speech flowed to a listener.
//!
//! [`hear`] runs a script, such as a journal or a recording, and reports each interval to a [`Sink`] when the interval
//! or the script ends:
//!
//! ```rust
//! let (sink, extent, missing) = hear(alloc, core, &mut input, sink, roll)?;
//! ```
//!
//! [`hear_at`] answers whether a talker could be heard at a given time. [`write_report`] writes a line for each
//! interval and each gap that a query selects; [`write_answer`] writes the answer about a given time. All of them also
//! return who is missing: a talker or a listener that the query names and the gateway never had (`specs/Came.antt`).
//!
//! A question may give the name of a listener or a talker. [`Names`] holds the lines of a file of names. With these
//! lines, an [`AskedQuery`] becomes a [`Query`], which has keys in place of names. Reports also show the names of
//! terminations.
//!
//! Some interval of a pair contains a tick if and only if the talker's speech flows to the listener in the world before
//! that tick (`specs/Laws.antt`). The intervals follow from the flows that are open before each tick
//! (`specs/Intervals.antt`). The intervals that have not ended are stored, and compared with the flows that are open
//! before the next tick. Each listener has a row of intervals, and a row is compared only if its flows may have
//! changed.
//!
//! Dates and gaps come from the script's comments (`specs/Times.antt`).
#![tactic(auto)]

mod answering;
mod asked;
mod asked_query;
mod asked_rule;
mod attended;
mod changes;
mod claim;
mod clock;
mod clock_fault;
mod continuing;
mod entry;
mod escaping;
mod extent;
mod fenced;
mod filling;
mod format;
mod gap;
mod heard;
mod heard_fault;
mod hearer;
mod hearing;
mod instant;
mod interval;
mod keys;
mod line;
mod line_writer;
mod listener_row;
mod missed;
mod missing;
mod moment;
mod name;
mod name_fault;
mod named;
mod names;
mod open_flow;
mod open_interval;
mod open_intervals;
mod open_rows;
mod party;
mod party_name;
mod query;
mod report;
mod reporting;
mod roll;
mod row;
mod rows;
mod rule;
mod scale;
mod seated;
mod sink;
mod style;
mod telling;
pub mod theorems;
mod verdict;
mod violation;
mod watch;
mod watching;

pub use crate::answering::hear_at;
pub use crate::asked::Asked;
pub use crate::asked_query::AskedQuery;
pub use crate::asked_rule::{AskedRule, rules_of};
pub use crate::claim::Claim;
pub use crate::clock::Clock;
pub use crate::clock_fault::ClockFault;
pub use crate::entry::Entry;
pub use crate::extent::Extent;
pub use crate::format::Format;
pub use crate::gap::Gap;
pub use crate::heard_fault::HeardFault;
pub use crate::hearing::hear;
pub use crate::instant::Instant;
pub use crate::interval::Interval;
pub use crate::keys::Keys;
pub use crate::line_writer::LineWriter;
pub use crate::missing::Missing;
pub use crate::moment::Moment;
pub use crate::name::{Name, NameText};
pub use crate::name_fault::NameFault;
pub use crate::named::Named;
pub use crate::names::Names;
pub use crate::open_flow::OpenFlow;
pub use crate::open_interval::OpenInterval;
pub use crate::open_intervals::OpenIntervals;
pub use crate::party::Party;
pub use crate::party_name::PartyName;
pub use crate::query::Query;
pub use crate::report::Report;
pub use crate::reporting::{write_answer, write_report};
pub use crate::roll::Roll;
pub use crate::rule::Rule;
pub use crate::scale::Scale;
pub use crate::sink::Sink;
pub use crate::style::Style;
pub use crate::telling::tell_gap;
pub use crate::verdict::Verdict;
pub use crate::violation::Violation;
pub use crate::watching::{find_violation, write_violation};
