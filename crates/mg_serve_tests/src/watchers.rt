//! Monitors and sinks that keep the last report or text of a session.

use mg_core::Taken;
use mg_monitor::Sink;
use mg_serve::{Core, JournalReport, Monitor, TickReport};

/// Keeps the last text, and counts the texts.
#[derive(Drop)]
pub struct LastText<'a> {
    pub text: &'a mut Vec<u8>,
    pub count: &'a mut usize,
}

impl Sink for LastText<'_> {
    fn put(&mut self, text: &[u8]) {
        self.text.clear();
        let _ = self.text.extend_from_slice(text);
        *self.count = self.count.saturating_add(1);
    }
}

/// Keeps the last report about the journal.
#[derive(Drop)]
pub struct LastReport<'a> {
    pub journal: &'a mut JournalReport,
}

impl Monitor for LastReport<'_> {
    fn begin_poll(&mut self) {}

    fn count_stranger(&mut self, _socket: u16) {}

    fn count_media(&mut self, _socket: u16, _bytes: &[u8], _taken: Taken) {}

    fn begin_tick(&mut self, _core: &Core) {}

    fn end_tick(&mut self, report: &TickReport<'_>) {
        *self.journal = report.journal;
    }
}
