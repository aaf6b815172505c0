use crate::journal_report::JournalReport;
use mg_clock::Timing;
use mg_core::{Config, Core, Counts};
use mg_fence::Fence;
use mg_ports::FailureCauses;

/// The report to a monitor at the end of a tick.
#[derive(Drop)]
pub struct TickReport<'a> {
    pub config: Config,
    pub core: &'a Core,
    /// The counts since the start.
    pub counts: Counts,
    /// Control datagrams that were dropped because memory ran out while they were read.
    pub unread: u64,
    /// Control datagrams that were dropped because they didn't pass the fence.
    pub stale: u64,
    /// The fence after all messages so far, or `None` if there is no fence.
    pub fence: Option<Fence>,
    /// The failed receives and sends since the start, by cause.
    pub failures: FailureCauses,
    /// The journal's state.
    pub journal: JournalReport,
    /// Whether the tick was late. If it was, ports on a network sent none of its packets.
    pub timing: Timing,
}
