ghost use Rattle.std.specs.Prelude.{◌≡◌, ◌<◌, ◌≤◌, ◌+◌, ◌++◌, ◌∷◌, [], ℕ, List, Option, true, false, length, is_none, IfOk, OnErr, OnOk};
ghost use Rattle.mg_journal.specs.Journal.{Appends, appended};
ghost use Rattle.mg_journal.specs.aids.Opened.{text_in};
ghost use Rattle.mg_journal.specs.Text.{EndsInLineFeed};
ghost use Rattle.mg_start.specs.Journal.{RunsNoSession, fence_comment, missed_lines, start_lines};
ghost use Rattle.mg_host.specs.declared.host_call.HostCall.{HostCall};
ghost use Rattle.mg_host.specs.declared.host_call.HostCall.TheVariants.{ReadDate};
ghost use Rattle.mg_host.specs.HostCalls.{Grows};
ghost use Rattle.mg_start.specs.aids.Starting.{HasBegun, Logs, PassesTicks, missed_by, title_before};
ghost use Rattle.mg_service.specs.Title.{title_line};

use crate::gateway::Gateway;
use crate::journal_fault::JournalFault;
use crate::start::Start;
use arrayvec::ArrayVec;
use itoa::Buffer;
use mg_core::{Config, ticks_line};
use mg_dates::{Date, DatedJournal, Timeline};
use mg_host::{Dates, Environment, System, Tells};
use mg_journal::{AppendFault, Durability, FileJournal, Journal, JournalFile, Opening};
use mg_service::title_line_of;
use std::alloc::AllocError;
use std::io::{self, ErrorKind};

/// A journal before anything is appended to it.
#[derive(Drop)]
pub struct FoundJournal<F: JournalFile> {
    pub opening: Opening<F>,
    /// The timeline of the journal's ticks, or `None` for a new journal.
    pub timeline: Option<Timeline>,
}

/// Appends lines to a journal.
fn append<T: Tells, J: Journal>(
    host: &mut T,
    journal: &mut J,
    lines: &[u8],
    durability: Durability,
) -> Result<(), AppendFault>
    requires line_feed { EndsInLineFeed lines.now }
    ensures value { Appends lines.now durability (J.journal journal.old) (J.journal journal.new) result }
    ensures logged { Logs (T.calls host.old) (T.calls host.new) lines.now result }
{
    let outcome = journal.append(lines, durability);
    host.log_append(lines, durability, outcome);
    outcome
}

/// Appends the title of a new journal.
fn append_title<T: Tells, J: Journal>(
    host: &mut T,
    config: &Config,
    journal: &mut J,
) -> Result<(), AppendFault>
    ensures value { Appends (title_line config.now) Durability.Synced (J.journal journal.old) (J.journal journal.new)
        result }
    ensures logged { Logs (T.calls host.old) (T.calls host.new) (title_line config.now) result }
{
    append(
        host,
        journal,
        title_line_of(config).as_slice(),
        Durability::Synced,
    )
}

/// The maximum length of the lines that are appended before a gateway starts, in bytes.
const START_ROOM: usize = 98;

/// The lines that are appended before a gateway starts.
type StartLines = ArrayVec<u8, START_ROOM>;

/// Appends bytes to `lines`.
fn extend(lines: &mut StartLines, text: &[u8])
    requires room { length lines.old.items + length text.now ≤ START_ROOM }
    ensures value { lines.new.items ≡ lines.old.items ++ text.now }
{
    let _ = lines.try_extend_from_slice(text);
}

/// Appends the lines for missed ticks to `lines`.
fn extend_missed(missed: u64, lines: &mut StartLines)
    requires room { length lines.old.items ≤ 16 }
    ensures value { lines.new.items ≡ lines.old.items ++ missed_lines missed }
    ensures short { length lines.new.items ≤ 79 }
{
    if missed == 0 {
        return;
    }
    let mut buffer = Buffer::new();
    extend(lines, b"# missed ");
    extend(lines, buffer.format(missed).as_bytes());
    extend(lines, b" ticks\n");
    extend(lines, ticks_line(missed).as_slice());
}

/// If an operator sets the fence, appends the comment that sets it to `lines`.
fn extend_fence(fence: Option<u32>, lines: &mut StartLines)
    requires room { length lines.old.items ≤ 79 }
    ensures value { lines.new.items ≡ lines.old.items ++ fence_comment fence }
{
    let Some(number) = fence else {
        return;
    };
    let mut buffer = Buffer::new();
    extend(lines, b"# fence ");
    extend(lines, buffer.format(number).as_bytes());
    extend(lines, b"\n");
}

/// Returns the lines that are appended before a gateway starts.
fn start_lines(missed: u64, fence: Option<u32>) -> StartLines
    ensures value { result.items ≡ start_lines missed fence }
{
    let mut lines = StartLines::new();
    extend(&mut lines, b"# counted ticks\n");
    extend_missed(missed, &mut lines);
    extend_fence(fence, &mut lines);
    lines
}

/// Appends the lines with which a gateway starts.
fn append_start<T: Tells, J: Journal>(
    host: &mut T,
    missed: u64,
    fence: Option<u32>,
    journal: &mut J,
) -> Result<(), AppendFault>
    ensures value { OnOk result (J.journal journal.new ≡ appended (start_lines missed fence) Durability.Written
        (J.journal journal.old)) }
    ensures logged { Logs (T.calls host.old) (T.calls host.new) (start_lines missed fence) result }
{
    append(
        host,
        journal,
        start_lines(missed, fence).as_slice(),
        Durability::Written,
    )
}

/// Appends the title if the journal is new, and then appends the lines with which a gateway starts.
fn append_first<T: Tells, J: Journal>(
    host: &mut T,
    is_new: bool,
    config: &Config,
    start: Start,
    journal: &mut J,
) -> Result<(), AppendFault>
    ensures new { is_new ≡ true → OnOk result (J.journal journal.new ≡ appended (start_lines start.missed start.fence) Durability.Written
        (appended (title_line config.now) Durability.Synced (J.journal journal.old))) }
    ensures new_logged { is_new ≡ true → Logs (T.calls host.old) (T.calls host.new)
        (title_line config.now ++ start_lines start.missed start.fence) result }
    ensures old { is_new ≡ false → OnOk result (J.journal journal.new ≡ appended (start_lines start.missed start.fence)
        Durability.Written (J.journal journal.old)) }
    ensures old_logged { is_new ≡ false → Logs (T.calls host.old) (T.calls host.new) (start_lines start.missed start.fence) result }
    ensures fails { OnErr result (RunsNoSession (T.calls host.old) (T.calls host.new)) }
{
    if !is_new {
        return append_start(host, start.missed, start.fence, journal);
    }
    if let Err(fault) = append_title(host, config, journal) {
        return Err(fault);
    }
    append_start(host, start.missed, start.fence, journal)
}

/// Returns whether a journal is new: it has no timeline.
fn is_new(timeline: &Option<Timeline>) -> bool
    ensures value { result ≡ is_none timeline.now }
{
    timeline.is_none()
}

/// Returns the fault for a failed append.
fn write_fault<F: JournalFile>(journal: &FileJournal<F>) -> JournalFault {
    let kind = match journal.last_error() {
        Some(error) => error.kind(),
        None => ErrorKind::Other,
    };
    JournalFault::Write(io::Error::from(kind))
}

impl<F: JournalFile> FoundJournal<F> {
    /// Returns how many ticks have been missed since the end of the journal, according to the system's clock. Returns 0
    /// if the journal is new or has no date, or if the system's date isn't known.
    fn missed<T: Dates>(&self, host: &mut T) -> u64
        ensures value { (millis : Option ℕ) × Grows (T.calls host.old) (T.calls host.new) (ReadDate millis ∷ [])
            × (result ≡ missed_by self.now.timeline millis) }
    {
        let now = host.millis();
        let Some(timeline) = &self.timeline else {
            return 0;
        };
        match now {
            Some(millis) => timeline.missed(Date { millis }),
            None => 0,
        }
    }

    /// Starts appending to the journal, and skips the ticks that the gateway missed. Appends the title if the journal
    /// is new. Then appends the lines with which the gateway starts: `# counted ticks`, the lines for missed ticks if
    /// there are any and, if an operator sets the fence, the comment that sets it.
    pub fn begin<'a, E: Environment>(
        self,
        system: &System<'a, E>,
        host: &mut E::Host,
        gateway: &mut Gateway<'_>,
    ) -> Result<DatedJournal<'a, FileJournal<F>, E::Clock>, JournalFault>
    where
        F: Drop,
        ensures passed { (missed : ℕ) × (millis : Option ℕ) × (read : Option (List HostCall))
            × (missed ≡ missed_by self.timeline millis)
            × Grows (E.Host.calls host.old) read (ReadDate millis ∷ [])
            × PassesTicks missed gateway.old.core.state gateway.new.core.state
            × IfOk result (λ journal.
            HasBegun (title_before self.timeline gateway.old.config) missed gateway.old.service.now.fence_from
            (text_in self.opening.file) journal)
            × Logs read (E.Host.calls host.new) (title_before self.timeline gateway.old.config
            ++ start_lines missed gateway.old.service.now.fence_from) result }
        ensures config { gateway.new.config ≡ gateway.old.config }
        ensures reached { gateway.new.reached ≡ gateway.old.reached }
        ensures service { gateway.new.service ≡ gateway.old.service }
    {
        let config = gateway.config;
        let fence = gateway.service.fence_from;
        let missed = self.missed(host);
        gateway.core.skip(missed);
        let is_new = is_new(&self.timeline);
        let mut journal = match self.opening.accept() {
            Ok(journal) => journal,
            Err(error) => return Err(JournalFault::Write(error)),
        };
        let start = Start { missed, fence };
        if append_first(host, is_new, &config, start, &mut journal).is_err() {
            return Err(write_fault(&journal));
        }
        match DatedJournal::new(system.alloc, journal, system.clock) {
            Ok(dated) => Ok(dated),
            Err(AllocError) => Err(JournalFault::NoMemory),
        }
    }
}
