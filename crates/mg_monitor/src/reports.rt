use crate::journal_watch::JournalWatch;
use crate::port_counts::PortCounts;
use crate::stale_watch::StaleWatch;
use arrayvec::ArrayVec;
use mg_clock::Timing;
use mg_core::{Core, Counts, Record, TERMINATION_LIMIT, Taken};
use mg_fence::Fence;
use mg_serve::{Monitor, TickReport};
use mg_words::mode_talks;
use std::alloc::{AllocError, Global};
use std::io::Write;

/// Ticks per second.
const TICKS: u64 = 50;

/// A line that is built before it is printed.
type Text = ArrayVec<u8, 512>;

/// Prints reports for an operator.
///
/// At the given interval, it prints the totals since the start. It also prints a line for each media port that has had
/// trouble since the last report, or whose caller was silent for the whole interval. After a stall, it prints how many
/// packets were too late to be sent. When appends to the journal begin to fail, or work again, and when the journal can't
/// be renewed, it prints a line at once. At most once a second, it prints how many messages didn't pass the fence. It
/// skips lines that can't be printed.
#[derive(Drop)]
pub struct Reports<'a, E: Write> {
    every: u64,
    /// The number of ticks so far.
    ticks: u64,
    /// The number of packets in late ticks since the last tick that was on time.
    late: u64,
    /// Datagrams that were dropped because of their sender.
    strangers: u64,
    journal: JournalWatch,
    stale: StaleWatch,
    ports: Vec<PortCounts>,
    writer: &'a mut E,
}

impl<'a, E: Write> Reports<'a, E> {
    /// Creates a monitor that prints the totals and the ports at this interval, in seconds; 0 disables these lines.
    pub fn new(alloc: Global, seconds: u16, writer: &'a mut E) -> Result<Self, AllocError> {
        Ok(Reports {
            every: u64::from(seconds) * TICKS,
            ticks: 0,
            late: 0,
            strangers: 0,
            journal: JournalWatch::new(),
            stale: StaleWatch::new(),
            ports: vec![in alloc; PortCounts::new(); TERMINATION_LIMIT]?,
            writer,
        })
    }

    /// Returns the counts of a media socket, or `None` for any other socket. Media sockets are numbered from 1.
    fn port(&mut self, socket: u16) -> Option<&mut PortCounts> {
        self.ports.get_mut(usize::from(socket).wrapping_sub(1))
    }

    /// Counts the packets of a late tick. Their total is printed at the next tick that is on time.
    fn count_late(&mut self, timing: Timing, packets: u64) {
        if timing == Timing::Late {
            self.late = self.late.saturating_add(packets);
        } else if self.late > 0 {
            let mut line = Text::new();
            let _ = writeln!(line, "{} packets were too late", self.late);
            write_line(&line, self.writer);
            let _ = self.writer.flush();
            self.late = 0;
        }
    }

    /// Prints a line if the journal has started to fail or is working again, and a line if it couldn't be renewed.
    fn watch_journal(&mut self, report: &TickReport<'_>) {
        let texts = self.journal.take(&report.journal, report.counts.control);
        for text in texts.iter().flatten() {
            let mut line = Text::new();
            let _ = writeln!(line, "{text}");
            write_line(&line, self.writer);
            let _ = self.writer.flush();
        }
    }

    /// Prints a line if messages didn't pass the fence since the last such line, at most once a second.
    fn watch_fence(&mut self, report: &TickReport<'_>) {
        let Some(fence) = report.fence else {
            return;
        };
        let Some(messages) = self.stale.take(report.stale, report.counts.ticks) else {
            return;
        };
        let mut line = Text::new();
        let _ = writeln!(
            line,
            "{messages} messages were stale: the fence is at {}",
            fence.reached
        );
        write_line(&line, self.writer);
        let _ = self.writer.flush();
    }

    /// Returns whether a report is due.
    fn is_due(&self) -> bool {
        self.every > 0 && self.ticks % self.every == 0
    }

    /// Prints a report.
    fn print(&mut self, report: &TickReport<'_>) {
        print_totals(&report.counts, self.strangers, self.writer);
        print_fence(report.fence, report.stale, self.writer);
        for slot in 0..=u8::MAX {
            self.print_slot(report, slot);
        }
        let _ = self.writer.flush();
    }

    /// If the port of a slot had trouble or its caller was silent for the whole interval, prints the port's counts.
    /// Resets the counts.
    fn print_slot(&mut self, report: &TickReport<'_>, slot: u8) {
        let rooms = report.core.rooms();
        let (Some(port), Some(counts)) = (rooms.port(slot), self.ports.get_mut(usize::from(slot)))
        else {
            return;
        };
        let held = rooms.held(slot);
        let silent = counts.silent_ticks(expected(held), self.ticks);
        if counts.has_trouble() || silent >= self.every {
            print_port(
                port,
                held.map_or(0, |record| record.number),
                counts,
                silent / TICKS,
                self.writer,
            );
        }
        counts.clear();
    }
}

impl<'a, E: Write> Monitor for Reports<'a, E> {
    fn begin_poll(&mut self) {}

    fn count_stranger(&mut self, socket: u16) {
        self.strangers = self.strangers.saturating_add(1);
        if let Some(port) = self.port(socket) {
            port.count_stranger();
        }
    }

    fn count_media(&mut self, socket: u16, bytes: &[u8], taken: Taken) {
        let ticks = self.ticks;
        if let Some(port) = self.port(socket) {
            port.count(bytes, taken, ticks);
        }
    }

    fn begin_tick(&mut self, core: &Core) {
        if self.every == 0 {
            return;
        }
        for place in 0..core.terminations() {
            let record = core.termination(place);
            if core.conceals(record.number) {
                if let Some(port) = self.ports.get_mut(usize::from(record.slot)) {
                    port.count_concealed();
                }
            }
        }
    }

    fn end_tick(&mut self, report: &TickReport<'_>) {
        self.ticks = report.counts.ticks;
        self.count_late(report.timing, report.core.outbox().len() as u64);
        self.watch_journal(report);
        self.watch_fence(report);
        if self.is_due() {
            self.print(report);
        }
    }
}

/// Returns the number of the termination if its caller should send packets, and `None` otherwise. The caller should
/// send packets if the termination has a Local and a mode in which it talks.
fn expected(held: Option<Record>) -> Option<u32> {
    match held {
        Some(record) if record.local.is_some() && mode_talks(record.mode) => Some(record.number),
        _ => None,
    }
}

/// Writes a line in one call.
fn write_line<E: Write>(line: &Text, writer: &mut E) {
    let _ = writer.write_all(line.as_slice());
}

/// Prints the totals since the start.
fn print_totals<E: Write>(counts: &Counts, strangers: u64, writer: &mut E) {
    let Counts {
        control,
        media,
        ticks,
        sent,
        failed,
        placed,
        dropped,
        concealed,
        ..
    } = counts;
    let [started, in_turn, pushed, again, late] = placed;
    let [a, b, c, d, e, f] = dropped;
    let mut line = Text::new();
    let _ = writeln!(
        line,
        "totals control={control} media={media} ticks={ticks} sent={sent} failed={failed} strangers={strangers} started={started} placed={in_turn} pushed={pushed} again={again} late={late} dropped={a},{b},{c},{d},{e},{f} concealed={concealed}"
    );
    write_line(&line, writer);
}

/// If there is a fence, prints its number and the number of messages that didn't pass the fence since the start.
fn print_fence<E: Write>(fence: Option<Fence>, stale: u64, writer: &mut E) {
    let Some(fence) = fence else {
        return;
    };
    let mut line = Text::new();
    let _ = writeln!(line, "fence number={} stale={stale}", fence.reached);
    write_line(&line, writer);
}

/// Prints the counts of a media port since the last report. `termination` is 0 if no termination has the port.
fn print_port<E: Write>(
    port: u16,
    termination: u32,
    seen: &PortCounts,
    silent: u64,
    writer: &mut E,
) {
    let counts = seen.counts;
    let strangers = seen.strangers;
    let lost = seen.lost();
    let concealed = counts.concealed;
    let [started, _, pushed, again, late] = counts.placed;
    let [a, b, c, d, e, f] = counts.dropped;
    let packets = counts.media;
    let mut line = Text::new();
    let _ = writeln!(
        line,
        "trouble port={port} termination={termination} packets={packets} lost={lost} concealed={concealed} started={started} pushed={pushed} again={again} late={late} dropped={a},{b},{c},{d},{e},{f} strangers={strangers} silent={silent}"
    );
    write_line(&line, writer);
}
