use crate::delays::Delays;
use crate::families::{put_datagrams, put_journal, put_ports, put_timing, put_use, sending};
use crate::page::Page;
use crate::port_totals::PortTotals;
use crate::sink::Sink;
use arrayvec::ArrayString;
use mg_core::{Config, Core, TERMINATION_LIMIT, Taken};
use mg_serve::{Monitor, TickReport};
use std::alloc::{AllocError, Global};
use std::fmt::Write as _;
use std::io;
use std::net::Ipv4Addr;
use std::time::{Clock, Duration};

/// Ticks per second.
const TICKS: u64 = 50;

/// The length of a tick, in microseconds.
const TICK_MICROS: u64 = 20_000;

/// The number of ticks from one metrics text to the next: five seconds' worth.
const EVERY: u64 = 5 * TICKS;

/// The initial capacity for the text, in bytes: enough for 256 ports.
const TEXT_ROOM: usize = 128 * 1024;

/// Measures a server, and passes all metrics to a sink every five seconds, as text in Prometheus' format.
#[derive(Drop)]
pub struct Metrics<'a, C: Clock, S: Sink + Drop> {
    clock: &'a C,
    sink: S,
    version: &'a str,
    /// The clock's reading 20 ms before the first tick is due, if the clock could be read.
    start: Option<Duration>,
    /// The clock's reading when the current poll began, if the clock could be read.
    began: Option<Duration>,
    /// The number of ticks so far.
    ticks: u64,
    /// The delays of the ticks: how late each tick began.
    delays: Delays,
    /// The longest time that a poll and its tick have taken since the last metrics text.
    longest: Duration,
    /// Datagrams that were dropped at the control port because of their sender.
    control_strangers: u64,
    /// Datagrams that were dropped at media ports because of their sender.
    media_strangers: u64,
    ports: Vec<PortTotals>,
    text: Vec<u8>,
}

impl<'a, C: Clock, S: Sink + Drop> Metrics<'a, C, S> {
    /// Starts measuring. The first tick is due 20 ms from this call.
    pub fn start_now(
        alloc: Global,
        clock: &'a C,
        sink: S,
        version: &'a str,
    ) -> Result<Self, AllocError> {
        Ok(Metrics {
            clock,
            sink,
            version,
            start: clock.monotonic().ok(),
            began: None,
            ticks: 0,
            delays: Delays::new(),
            longest: Duration::ZERO,
            control_strangers: 0,
            media_strangers: 0,
            ports: vec![in alloc; PortTotals::new(); TERMINATION_LIMIT]?,
            text: Vec::with_capacity(alloc, TEXT_ROOM)?,
        })
    }

    /// Records how late a tick begins. Ticks are counted from 1.
    fn count_delay(&mut self, tick: u64) {
        if let (Some(start), Some(began)) = (self.start, self.began) {
            let due = Duration::from_micros(tick.saturating_mul(TICK_MICROS));
            let passed = began.saturating_sub(start);
            self.delays.count(passed.saturating_sub(due));
        }
    }

    /// Measures the poll and tick that have just ended.
    fn count_step(&mut self) {
        if let (Some(began), Ok(now)) = (self.began, self.clock.monotonic()) {
            self.longest = self.longest.max(now.saturating_sub(began));
        }
    }

    /// Writes all metrics to the text. Fails only if memory runs out.
    fn write(&mut self, report: &TickReport<'_>) -> io::Result<()> {
        let label = gateway_label(&report.config);
        let sending = sending(report.core, self.ports.as_slice(), self.ticks);
        self.text.clear();
        let mut page = Page::new(&mut self.text, label.as_str());
        page.begin("info", "gauge", "The version of the program")?;
        page.sample_for("info", "version", &self.version, &1)?;
        put_timing(report.counts.ticks, &self.delays, self.longest, &mut page)?;
        put_use(report, sending, &mut page)?;
        put_datagrams(report, &mut page)?;
        let strangers = [
            ("control", self.control_strangers),
            ("media", self.media_strangers),
        ];
        let help = "Datagrams dropped because of their source";
        page.counters("strangers_total", help, "socket", &strangers)?;
        put_journal(report, &mut page)?;
        let help = "Missing frames that were replaced by the previous one";
        page.counter("frames_concealed_total", help, report.counts.concealed)?;
        put_ports(report, self.ports.as_slice(), &mut page)
    }

    /// Returns the totals of a media socket, or `None` for any other socket. Media sockets are numbered from 1.
    fn port(&mut self, socket: u16) -> Option<&mut PortTotals> {
        self.ports.get_mut(usize::from(socket).wrapping_sub(1))
    }
}

impl<'a, C: Clock, S: Sink + Drop> Monitor for Metrics<'a, C, S> {
    fn begin_poll(&mut self) {
        self.began = self.clock.monotonic().ok();
    }

    fn count_stranger(&mut self, socket: u16) {
        if socket == 0 {
            self.control_strangers = self.control_strangers.saturating_add(1);
        } else {
            self.media_strangers = self.media_strangers.saturating_add(1);
        }
    }

    fn count_media(&mut self, socket: u16, bytes: &[u8], taken: Taken) {
        let ticks = self.ticks;
        if let Some(port) = self.port(socket) {
            port.count(bytes, taken, ticks);
        }
    }

    fn begin_tick(&mut self, core: &Core) {
        self.count_delay(self.ticks.saturating_add(1));
        for place in 0..core.terminations() {
            let record = core.termination(place);
            if core.conceals(record.number) {
                if let Some(port) = self.ports.get_mut(usize::from(record.slot)) {
                    port.count_concealed();
                }
            }
        }
    }

    fn end_tick(&mut self, report: &TickReport<'_>) {
        self.ticks = report.counts.ticks;
        self.count_step();
        if self.ticks % EVERY != 0 {
            return;
        }
        if self.write(report).is_ok() {
            self.sink.put(self.text.as_slice());
        }
        self.longest = Duration::ZERO;
    }
}

/// Returns the label of a gateway: its address and port for control messages.
fn gateway_label(config: &Config) -> ArrayString<40> {
    let mut label = ArrayString::new();
    let address = Ipv4Addr::from(config.control_address);
    let port = config.control_port;
    let _ = write!(label, "gateway=\"{address}:{port}\"");
    label
}
