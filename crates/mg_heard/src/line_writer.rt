ghost use Rattle.std.specs.Prelude.{◌≡◌, ◌≤◌, ◌+◌, ℕ, length, IfOk, List, OnOk};
ghost use Rattle.std.specs.Io.KnownBytes.{Appends};
ghost use Rattle.mg_heard.specs.Lines.{head_of, IsLine, IsVerdictLine};
ghost use Rattle.mg_heard.specs.Never.{violation_line};

use crate::entry::Entry;
use crate::extent::Extent;
use crate::interval::Interval;
use crate::line::{
    LINE_LIMIT, not_heard_line, push_entry, push_head, push_violation, unknown_line,
};
use crate::scale::Scale;
use crate::style::Style;
use crate::verdict::Verdict;
use crate::violation::Violation;
use mg_bytes::Bytes;
use mg_core::Stopped;
use mg_dates::{Date, TimeText, Zone};
use mg_lines::write_whole;
use std::alloc::{AllocError, Global};
use std::io::Write;
use std::marker::Model;

/// Writes lines in a style, each line as a whole. Contracts represent a writer as its style.
#[derive(Drop)]
pub struct LineWriter {
    style: Style,
    line: Bytes,
    /// The scale of the entries so far.
    scale: Scale,
}

impl Model for LineWriter {
    ghost use Rattle.std.specs.Prelude.{◌≡◌, ◌+◌, length};
    ghost use Rattle.mg_heard.specs.declared.style.Style.{Style};
    ghost use Rattle.mg_heard.specs.declared.line.TheConstants.{LINE_LIMIT};

    ghost Value = { Style };

    ghost view = { λ w. w.style };

    ghost invariant = { λ w. w.line.room + length w.line.text ≡ LINE_LIMIT };
}

/// Returns the dates of an entry.
fn dates_of(entry: &Entry) -> (Option<Date>, Option<Date>) {
    match entry {
        Entry::Interval(interval) | Entry::Audible(interval) => {
            (interval.first.date, interval.end.and_then(|end| end.date))
        }
        Entry::Gap(gap) => (gap.first.date, gap.end.date),
    }
}

/// Returns the text of a date in a time zone, or an empty text if `date` is `None`.
fn text_of(date: Option<Date>, zone: &Zone) -> TimeText {
    match date {
        Some(date) => zone.text(date),
        None => TimeText::new(),
    }
}

/// Writes all bytes of `text`.
fn write_text<W: Write>(text: &[u8], writer: &mut W) -> Result<(), Stopped>
    ensures value { OnOk result (Appends (W.contents writer.old) (W.contents writer.new) text.now) }
{
    match write_whole(text, writer) {
        Ok(_) => Ok(()),
        Err(_) => Err(Stopped),
    }
}

/// Writes a line for an entry.
fn write_entry<W: Write>(
    style: &Style,
    entry: &Entry,
    line: &mut Bytes,
    writer: &mut W,
) -> Result<(), Stopped>
    requires room { LINE_LIMIT ≤ line.old.room + length line.old.text }
    ensures room { line.new.room + length line.new.text ≡ line.old.room + length line.old.text }
    ensures value { OnOk result ((text : List ℕ) × IsLine style.now entry.now text
        × Appends (W.contents writer.old) (W.contents writer.new) text) }
{
    let (from, until) = dates_of(entry);
    let from = text_of(from, &style.zone);
    let until = text_of(until, &style.zone);
    line.clear();
    push_entry(style, from.as_slice(), until.as_slice(), entry, line);
    write_text(line.as_slice(), writer)
}

impl LineWriter {
    /// Creates a writer. No other call allocates.
    pub fn new(alloc: Global, style: Style) -> Result<Self, AllocError>
        ensures value { IfOk result (λ lines. lines ≡ style) }
    {
        let line = Bytes::new(alloc, LINE_LIMIT)?;
        let scale = Scale::new();
        Ok(LineWriter { style, line, scale })
    }

    /// Writes the header: the names of the columns in CSV and on a page, and nothing in the other formats.
    pub fn write_head<W: Write>(&mut self, writer: &mut W) -> Result<(), Stopped>
        ensures same { self.new ≡ self.old }
        ensures value { OnOk result (Appends (W.contents writer.old) (W.contents writer.new) (head_of self.old.format)) }
    {
        self.line.clear();
        push_head(self.style.format, &mut self.line);
        write_text(self.line.as_slice(), writer)
    }

    /// Writes a line for an interval or a gap.
    pub(crate) fn write_entry<W: Write>(
        &mut self,
        entry: &Entry,
        writer: &mut W,
    ) -> Result<(), Stopped>
        ensures same { self.new ≡ self.old }
        ensures value { OnOk result ((text : List ℕ) × IsLine self.old entry.now text
            × Appends (W.contents writer.old) (W.contents writer.new) text) }
    {
        self.scale.include(entry);
        write_entry(&self.style, entry, &mut self.line, writer)
    }

    /// Returns the scale of the entries so far, given the time that their script covers.
    pub(crate) fn scale(&self, extent: &Extent) -> Scale {
        self.scale.within(extent)
    }

    /// Writes a line for the interval that is the answer to a question about a given time.
    fn write_interval<W: Write>(
        &mut self,
        interval: &Interval,
        writer: &mut W,
    ) -> Result<(), Stopped>
        ensures same { self.new ≡ self.old }
        ensures value { OnOk result ((text : List ℕ) × IsVerdictLine self.old (Verdict.CouldHear interval.now) text
            × Appends (W.contents writer.old) (W.contents writer.new) text) }
    {
        let entry = Entry::Interval(*interval);
        self.write_entry(&entry, writer)
    }

    /// Writes one line that answers a question about a given time.
    pub(crate) fn write_verdict<W: Write>(
        &mut self,
        verdict: &Verdict,
        writer: &mut W,
    ) -> Result<(), Stopped>
        ensures value { OnOk result ((text : List ℕ) × IsVerdictLine self.old verdict.now text
            × Appends (W.contents writer.old) (W.contents writer.new) text) }
    {
        match verdict {
            Verdict::CouldHear(interval) => self.write_interval(interval, writer),
            Verdict::CouldNotHear => write_text(not_heard_line(self.style.format), writer),
            Verdict::Unknown => write_text(unknown_line(self.style.format), writer),
        }
    }

    /// Writes a line for a violation.
    pub(crate) fn write_violation<W: Write>(
        &mut self,
        violation: &Violation,
        writer: &mut W,
    ) -> Result<(), Stopped>
        ensures value { OnOk result ((time : List ℕ)
            × Appends (W.contents writer.old) (W.contents writer.new) (violation_line self.old.format time self.old.names violation.now)) }
    {
        let time = text_of(violation.at.date, &self.style.zone);
        self.line.clear();
        push_violation(&self.style, time.as_slice(), violation, &mut self.line);
        write_text(self.line.as_slice(), writer)
    }
}
