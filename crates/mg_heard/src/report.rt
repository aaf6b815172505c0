use crate::entry::Entry;
use crate::line_writer::LineWriter;
use crate::query::Query;
use crate::sink::Sink;
use mg_core::Stopped;
use std::io::Write;

/// A sink that writes a line for each interval and gap that a query selects.
#[derive(Drop)]
pub struct Report<'a, W: Write> {
    pub lines: &'a mut LineWriter,
    pub query: &'a Query,
    pub writer: &'a mut W,
}

impl<W: Write> Sink for Report<'_, W> {
    ghost use Rattle.std.specs.Prelude.{◌≡◌};
    ghost use Rattle.mg_heard.specs.aids.Reporting.{HasReported};

    ghost told = { λ start now xs. (now.writer.ghost_name ≡ start.writer.ghost_name) × HasReported
        (record { style = start.lines.now; query = start.query.now; written = W.contents start.writer.now })
        (record { style = now.lines.now; query = now.query.now; written = W.contents now.writer.now }) xs };

    fn tell(&mut self, entry: &Entry) -> Result<(), Stopped> {
        if self.query.selects_entry(entry) {
            return self.lines.write_entry(entry, self.writer);
        }
        Ok(())
    }
}
