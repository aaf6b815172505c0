use mg_serve::JournalReport;

/// Detects when the journal begins to fail, when it works again, and when it can't be renewed.
#[derive(Clone, Copy, Debug, PartialEq, Eq)]
pub struct JournalWatch {
    is_failing: bool,
    /// Whether a message has been dropped since the journal began to fail.
    has_dropped: bool,
    /// The number of messages that have been handled.
    messages: u64,
    report: JournalReport,
}

impl JournalWatch {
    pub fn new() -> Self {
        JournalWatch {
            is_failing: false,
            has_dropped: false,
            messages: 0,
            report: JournalReport {
                lacking: 0,
                failed: 0,
                unjournaled: 0,
                unrenewed: 0,
            },
        }
    }

    /// Records the journal's state after a tick, and the number of messages that have been handled so far. Returns the
    /// lines for the operator.
    pub fn take(&mut self, report: &JournalReport, messages: u64) -> [Option<&'static str>; 2] {
        let has_failed = report.failed > self.report.failed;
        let was_failing = self.is_failing;
        self.has_dropped |= report.unjournaled > self.report.unjournaled;
        if has_failed {
            self.is_failing = true;
        } else if self.has_worked(report, messages) {
            self.is_failing = false;
            self.has_dropped = false;
        }
        let is_unrenewed = report.unrenewed > self.report.unrenewed;
        self.report = *report;
        self.messages = messages;
        [
            change(was_failing, self.is_failing),
            is_unrenewed.then_some("the journal can't be renewed: the next try is in a minute"),
        ]
    }

    /// Returns whether an append has worked since the last tick, given that none has failed since. On a full disk,
    /// there may be room for the line of some ticks, but not for a message. So after a message was dropped, only a
    /// message counts.
    fn has_worked(&self, report: &JournalReport, messages: u64) -> bool {
        if self.has_dropped {
            return messages > self.messages;
        }
        // Each tick adds one to the number of ticks that the journal lacks, unless an append succeeded.
        report.lacking <= self.report.lacking
    }
}

/// Returns the line that reports that the journal began to fail, or works again.
fn change(was_failing: bool, is_failing: bool) -> Option<&'static str> {
    match (was_failing, is_failing) {
        (false, true) => Some("the journal can't be written: messages get no answer"),
        (true, false) => Some("the journal can be written again"),
        _ => None,
    }
}
