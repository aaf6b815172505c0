use crate::delays::Delays;
use crate::page::Page;
use crate::port_counter::PortCounter;
use crate::port_totals::PortTotals;
use crate::seconds::Seconds;
use mg_core::{Core, Counts};
use mg_serve::TickReport;
use std::io::{self, Write};
use std::time::Duration;

/// Returns the number of terminations whose port accepted a packet within the last second.
pub fn sending(core: &Core, ports: &[PortTotals], ticks: u64) -> usize {
    let mut sending: usize = 0;
    for place in 0..core.terminations() {
        let slot = usize::from(core.termination(place).slot);
        if let Some(port) = ports.get(slot) {
            sending = sending.saturating_add(usize::from(port.is_sending(ticks)));
        }
    }
    sending
}

/// Returns the number of contexts, by counting the first member of each context.
fn contexts(core: &Core) -> usize {
    let mut contexts: usize = 0;
    for place in 0..core.terminations() {
        let record = core.termination(place);
        let first = core.rooms().members(record.context).first();
        contexts = contexts.saturating_add(usize::from(first == Some(&record.number)));
    }
    contexts
}

/// Writes the metrics about ticks.
pub fn put_timing<W: Write>(
    ticks: u64,
    delays: &Delays,
    longest: Duration,
    page: &mut Page<'_, W>,
) -> io::Result<()> {
    page.counter("ticks_total", "Ticks of 20 ms that have begun", ticks)?;
    page.histogram("tick_delay_seconds", "How late ticks began", delays)?;
    let help = "The longest poll and tick in the last five seconds";
    page.gauge("step_seconds_max", help, &Seconds::of(longest))
}

/// Writes the metrics about the terminations and contexts in use.
pub fn put_use<W: Write>(
    report: &TickReport<'_>,
    sending: usize,
    page: &mut Page<'_, W>,
) -> io::Result<()> {
    page.gauge("contexts", "Contexts (conferences)", &contexts(report.core))?;
    let help = "Terminations";
    page.gauge("terminations", help, &report.core.terminations())?;
    let help = "Media ports: the maximum number of terminations";
    page.gauge("slots", help, &report.config.slots)?;
    let help = "Terminations that accepted a packet within the last second";
    page.gauge("callers_sending", help, &sending)
}

/// Returns the number of RTP datagrams with each outcome.
fn results(counts: &Counts) -> [(&'static str, u64); 11] {
    let [started, placed, pushed, duplicate, late] = counts.placed;
    let [
        no_termination,
        stray,
        no_local,
        not_rtp,
        payload_type,
        length,
    ] = counts.dropped;
    [
        ("started", started),
        ("placed", placed),
        ("pushed", pushed),
        ("duplicate", duplicate),
        ("late", late),
        ("no_termination", no_termination),
        ("stray", stray),
        ("no_local", no_local),
        ("not_rtp", not_rtp),
        ("payload_type", payload_type),
        ("length", length),
    ]
}

/// Writes the counts of messages from controllers.
fn put_messages<W: Write>(report: &TickReport<'_>, page: &mut Page<'_, W>) -> io::Result<()> {
    let help = "Messages accepted from controllers";
    page.counter("control_messages_total", help, report.counts.control)?;
    let help = "Messages dropped for lack of memory";
    page.counter("control_messages_unread_total", help, report.unread)?;
    put_fence(report, page)
}

/// If there is a fence, writes its number and the number of messages that didn't pass the fence.
fn put_fence<W: Write>(report: &TickReport<'_>, page: &mut Page<'_, W>) -> io::Result<()> {
    let Some(fence) = report.fence else {
        return Ok(());
    };
    let help = "Highest number of a message that has been run";
    page.gauge("fence_number", help, &fence.reached)?;
    let help = "Messages dropped because they didn't pass the fence";
    page.counter("control_messages_stale_total", help, report.stale)
}

/// Writes the counts of answers and packets, and of failed receives.
fn put_sends<W: Write>(report: &TickReport<'_>, page: &mut Page<'_, W>) -> io::Result<()> {
    let help = "Answers and packets sent";
    page.counter("datagrams_sent_total", help, report.counts.sent)?;
    let failures = report.failures;
    let causes = [
        ("late", failures.late),
        ("held", failures.held),
        ("refused", failures.refused),
    ];
    let help = "Answers and packets not sent";
    page.counters("datagrams_unsent_total", help, "cause", &causes)?;
    let help = "Receives that the system refused";
    page.counter("receives_failed_total", help, failures.receives)
}

/// Writes the counts of datagrams.
pub fn put_datagrams<W: Write>(report: &TickReport<'_>, page: &mut Page<'_, W>) -> io::Result<()> {
    put_messages(report, page)?;
    let help = "RTP datagrams received";
    page.counters(
        "rtp_packets_total",
        help,
        "result",
        &results(&report.counts),
    )?;
    put_sends(report, page)
}

/// Writes the state of the journal.
pub fn put_journal<W: Write>(report: &TickReport<'_>, page: &mut Page<'_, W>) -> io::Result<()> {
    let journal = report.journal;
    let help = "Ticks that have passed and are not in the journal yet";
    page.gauge("journal_lacking_ticks", help, &journal.lacking)?;
    let help = "Appends to the journal that failed";
    page.counter("journal_appends_failed_total", help, journal.failed)?;
    let help = "Attempts to replace the journal by a checkpoint that failed";
    page.counter("journal_renewals_failed_total", help, journal.unrenewed)?;
    let help = "Messages dropped because an append to the journal failed";
    page.counter(
        "control_messages_unjournaled_total",
        help,
        journal.unjournaled,
    )
}

/// Returns a port's number and totals. Returns `None` if there is no such slot, or if no termination has the port and
/// no datagram from an admitted sender has arrived at it.
fn seen_port(report: &TickReport<'_>, ports: &[PortTotals], slot: u8) -> Option<(u16, PortTotals)> {
    let rooms = report.core.rooms();
    let port = rooms.port(slot)?;
    let totals = *ports.get(usize::from(slot))?;
    if totals.packets == 0 && rooms.held(slot).is_none() {
        return None;
    }
    Some((port, totals))
}

/// Writes the metrics of each port that has a termination or at which a datagram from an admitted sender has arrived.
pub fn put_ports<W: Write>(
    report: &TickReport<'_>,
    ports: &[PortTotals],
    page: &mut Page<'_, W>,
) -> io::Result<()> {
    put_terminations(report, ports, page)?;
    put_port_counter(PortCounter::Packets, report, ports, page)?;
    put_port_counter(PortCounter::Lost, report, ports, page)?;
    put_port_counter(PortCounter::Concealed, report, ports, page)?;
    put_silences(report, ports, page)
}

/// Writes, for each port that has a termination, the number of the termination.
fn put_terminations<W: Write>(
    report: &TickReport<'_>,
    ports: &[PortTotals],
    page: &mut Page<'_, W>,
) -> io::Result<()> {
    let name = "port_termination";
    page.begin(
        name,
        "gauge",
        "The number n of the termination RTP/n that has the port",
    )?;
    for slot in 0..=u8::MAX {
        let held = report.core.rooms().held(slot);
        if let (Some(record), Some((port, _))) = (held, seen_port(report, ports, slot)) {
            page.sample_for(name, "port", &port, &record.number)?;
        }
    }
    Ok(())
}

/// Writes a counter for each port that has a termination or at which a datagram from an admitted sender has arrived.
fn put_port_counter<W: Write>(
    counter: PortCounter,
    report: &TickReport<'_>,
    ports: &[PortTotals],
    page: &mut Page<'_, W>,
) -> io::Result<()> {
    page.begin(counter.name(), "counter", counter.help())?;
    for slot in 0..=u8::MAX {
        if let Some((port, totals)) = seen_port(report, ports, slot) {
            page.sample_for(counter.name(), "port", &port, &counter.of(&totals))?;
        }
    }
    Ok(())
}

/// Writes the time since each port last accepted a packet, or since the start. Includes only the ports that have a
/// termination or at which a datagram from an admitted sender has arrived.
fn put_silences<W: Write>(
    report: &TickReport<'_>,
    ports: &[PortTotals],
    page: &mut Page<'_, W>,
) -> io::Result<()> {
    let name = "port_silence_seconds";
    let help = "Time since the last accepted packet, or since the start";
    page.begin(name, "gauge", help)?;
    for slot in 0..=u8::MAX {
        if let Some((port, totals)) = seen_port(report, ports, slot) {
            let silent = Seconds::of_ticks(totals.silent_ticks(report.counts.ticks));
            page.sample_for(name, "port", &port, &silent)?;
        }
    }
    Ok(())
}
