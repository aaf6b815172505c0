ghost use Rattle.std.specs.Prelude.{◌≡◌, ◌⊎◌, ◌+◌, ◌++◌, ◌≤◌, [], codes, length, IfOk, OnOk};
ghost use Rattle.mg_chain.specs.Seals.{IsSeal};
ghost use Rattle.mg_journal.specs.Journal.{text_to_seal};
ghost use Rattle.mg_journal.specs.Text.{EndsInLineFeed};
ghost use Rattle.mg_dates.specs.aids.Texts.{Extends, IsJoined, IsShortLine};
ghost use Rattle.mg_dates.specs.declared.date_text.TheConstants.{TEXT_LIMIT};
ghost use Rattle.mg_ports.specs.Journaled.{AppendsDated, RenewsDated};

use crate::date::Date;
use crate::date_text::{DateText, TEXT_LIMIT};
use mg_bytes::Bytes;
use mg_chain::{END, FOLLOWS, MARK};
use mg_journal::{AppendFault, Durability, Journal};
use mg_ports::Batch;
use std::alloc::{AllocError, Global};
use std::marker::Model;
use std::time::Clock;

/// The space for the lines after a date, in bytes. Every message's line fits.
const LINES_ROOM: usize = 140_000;

/// The beginning of a line with a date.
const DATE: &[u8] = b"# time ";

/// The length of `DATE` and a line feed, in bytes.
const MARKS: usize = 8;

/// The length of a tick, in milliseconds.
const TICK: u64 = 20;

/// The length of a seal's line, in bytes.
const SEAL: usize = 9 + END;

/// The length of the line that says which journal another one follows, in bytes.
const JOINT: usize = 10 + END;

/// The capacity of the buffer, in bytes.
const TEXT_ROOM: usize = LINES_ROOM + TEXT_LIMIT + MARKS + SEAL;

/// Ticks get a new date if the last date is at least this old, in milliseconds, or the clock was set back. The same age
/// of the last seal decides whether a date gets a seal.
const MAX_AGE: u64 = 60_000;

/// A journal that adds dates: before the first batch, before the first message of each second, and before ticks if the
/// last date is a minute old or the clock was set back.
///
/// A seal (`mg_chain`) precedes the first date, and then a date about once a minute. A date that is earlier than that
/// of the last seal gets a seal, too.
#[derive(Drop)]
pub struct DatedJournal<'a, J: Journal, C: Clock> {
    journal: J,
    clock: &'a C,
    /// A buffer for the lines that are being appended, with their seal and date.
    text: Bytes,
    last: Option<Date>,
    /// The date of the last seal.
    sealed: Option<Date>,
}

impl<'a, J: Journal, C: Clock> Model for DatedJournal<'a, J, C> {
    ghost use Rattle.std.specs.Prelude.{◌≡◌, ◌+◌, length};
    ghost use Rattle.mg_journal.specs.Journal.{JournalState};
    ghost use Rattle.mg_dates.specs.declared.dated_journal.TheConstants.{TEXT_ROOM};

    ghost Value = { JournalState };

    ghost view = { λ d. J.journal d.journal };

    ghost invariant = { λ d. d.text.room + length d.text.text ≡ TEXT_ROOM };
}

/// Returns the time of the events in a batch that is being appended. For ticks, this is the time at which the first tick
/// began.
fn date_of(batch: Batch, now: Date) -> Date {
    match batch {
        Batch::Message => now,
        Batch::Ticks(count) => now.before(count.saturating_mul(TICK)),
    }
}

/// Returns whether a batch needs a date.
fn needs_date(batch: Batch, last: Option<Date>, now: Date) -> bool {
    let Some(last) = last else {
        return true;
    };
    match batch {
        Batch::Message => now.second() != last.second(),
        Batch::Ticks(_) => now < last || now.millis - last.millis >= MAX_AGE,
    }
}

/// Returns whether a date needs a seal.
fn needs_seal(sealed: Option<Date>, date: Date) -> bool {
    match sealed {
        Some(last) => date < last || date.millis - last.millis >= MAX_AGE,
        None => true,
    }
}

/// Returns the date of the last seal after an append.
fn sealed_at(is_due: bool, date: Date, last: Option<Date>) -> Option<Date> {
    if is_due { Some(date) } else { last }
}

/// Empties the text and, if a seal is due, starts it with the journal's seal.
fn start_text<J: Journal>(is_due: bool, journal: &J, text: &mut Bytes)
    requires room { SEAL ≤ text.old.room + length text.old.text }
    ensures seal { (text.new.text ≡ []) ⊎ IsSeal (text_to_seal (J.journal journal.now)) text.new.text }
    ensures room { text.new.room + length text.new.text ≡ text.old.room + length text.old.text }
    ensures short { length text.new.text ≤ SEAL }
{
    text.clear();
    if is_due {
        text.push(MARK);
        text.push(&journal.seal_end());
    }
}

/// Appends to a text the line that says which journal the text follows, and a line with a date. `buffer` is
/// overwritten. If there is no memory, the text is unchanged.
fn push_joint<J: Journal>(
    journal: &J,
    date: &DateText,
    buffer: &mut Bytes,
    text: &mut Vec<u8>,
) -> Result<(), AllocError>
    requires room { JOINT + TEXT_LIMIT + MARKS ≤ buffer.old.room + length buffer.old.text }
    ensures room { buffer.new.room + length buffer.new.text ≡ buffer.old.room + length buffer.old.text }
    ensures joined { OnOk result (IsJoined (text_to_seal (J.journal journal.now)) date.now text.old.items
        text.new.items) }
    ensures front { Extends text.old.items text.new.items }
    ensures short { IsShortLine date.now }
{
    buffer.clear();
    buffer.push(FOLLOWS);
    buffer.push(&journal.seal_end());
    buffer.push(DATE);
    buffer.push(date.as_slice());
    buffer.push(b"\n");
    text.extend_from_slice(buffer.as_slice())
}

impl<'a, J: Journal, C: Clock> DatedJournal<'a, J, C> {
    /// Creates a journal that adds dates. No other call allocates.
    pub fn new(alloc: Global, journal: J, clock: &'a C) -> Result<Self, AllocError>
    where
        J: Drop,
        ensures value { IfOk result (λ d. d ≡ J.journal journal) }
    {
        Ok(DatedJournal {
            journal,
            clock,
            text: Bytes::new(alloc, TEXT_ROOM)?,
            last: None,
            sealed: None,
        })
    }

    /// Returns the underlying journal.
    pub fn journal(&self) -> &J
        ensures value { self.now ≡ J.journal result.now }
    {
        &self.journal
    }

    /// Returns the date that a batch needs, or `None` if it doesn't need a date or the clock can't be read.
    fn next_date(&self, batch: Batch) -> Option<Date> {
        let Ok(now) = Date::now(self.clock) else {
            return None;
        };
        if needs_date(batch, self.last, now) {
            return Some(date_of(batch, now));
        }
        None
    }

    /// Appends lines and nothing else.
    #[tactic(auto, using(crate::proofs::DateLemmas::undated))]
    fn append_undated(&mut self, lines: &[u8], durability: Durability) -> Result<(), AppendFault>
        requires line_feed { EndsInLineFeed lines.now }
        ensures value { AppendsDated lines.now durability self.old self.new result }
    {
        self.journal.append(lines, durability)
    }

    /// Appends the lines of a batch. Puts a date before them if they need one, and a seal before the date if the date
    /// needs one. Adds neither if the clock can't be read, the year is after 9999, or the lines are too long.
    pub fn append(
        &mut self,
        batch: Batch,
        lines: &[u8],
        durability: Durability,
    ) -> Result<(), AppendFault>
        requires line_feed { EndsInLineFeed lines.now }
        ensures value { AppendsDated lines.now durability self.old self.new result }
    {
        let Some(date) = self.next_date(batch) else {
            return self.append_undated(lines, durability);
        };
        let Some(text) = DateText::of(date) else {
            return self.append_undated(lines, durability);
        };
        if lines.len() > LINES_ROOM {
            return self.append_undated(lines, durability);
        }
        let is_due = needs_seal(self.sealed, date);
        start_text(is_due, &self.journal, &mut self.text);
        self.text.push(DATE);
        self.text.push(text.as_slice());
        self.text.push(b"\n");
        self.text.push(lines);
        let result = self.journal.append(self.text.as_slice(), durability);
        if result.is_ok() {
            self.last = Some(date);
            self.sealed = sealed_at(is_due, date, self.sealed);
        }
        result
    }
    /// Returns the journal's size, in bytes, or 0 if it is broken.
    pub fn size(&self) -> u64 {
        self.journal.size()
    }

    /// Returns whether whoever reads the journal's file finds the whole journal.
    pub fn is_intact(&mut self) -> bool
        ensures same { self.new ≡ self.old }
    {
        self.journal.is_intact()
    }

    /// Replaces the journal by one with this text, which ends in a line feed. After the text come a line with the hash of
    /// the old journal's last part, and a date. The old journal keeps a name that ends in the date. Fails if the date
    /// isn't known or there is no memory. If the call fails, the journal is unchanged.
    pub fn renew(&mut self, text: &mut Vec<u8>, durability: Durability) -> Result<(), AppendFault>
        requires line_feed { EndsInLineFeed text.old.items }
        ensures value { RenewsDated text.old.items durability self.old self.new result }
        ensures front { Extends text.old.items text.new.items }
    {
        let Ok(date) = Date::now(self.clock) else {
            return Err(AppendFault::Refused);
        };
        let Some(line) = DateText::of(date) else {
            return Err(AppendFault::Refused);
        };
        let Ok(()) = push_joint(&self.journal, &line, &mut self.text, text) else {
            return Err(AppendFault::Refused);
        };
        let result = self
            .journal
            .renew(text.as_slice(), line.as_str(), durability);
        if result.is_ok() {
            self.last = Some(date);
            self.sealed = None;
        }
        result
    }
}
