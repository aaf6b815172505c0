//! Sessions of a new gateway over in-memory ports, described as data.

ghost use Rattle.std.specs.Prelude.{OnOk};
ghost use Rattle.mg_engine.specs.Config.{IsValidConfig};

use crate::clocks::{LateClock, SteadyClock};
use crate::watchers::{LastReport, LastText};
use mg_fakes::{FailingReader, FailingWriter};
use mg_fence::Fence;
use mg_journal::{AppendFault, FaultEffect, FileCall, InjectedFault, MemoryFile, Opening};
use mg_monitor::{Both, Metrics, Reports};
use mg_ports::{Arrival, Call, FakePorts, Payload, Peer, Receipt};
use mg_serve::{
    Config, Core, Counts, Durability, JournalReport, Monitor, RunFault, Setup, Start, Timer,
    Timing, serve, serve_by_clock,
};
use std::alloc::{AllocError, Global};
use std::io::{self, Cursor, ErrorKind};

pub const CALLER: Peer = Peer {
    address: [127, 0, 0, 1],
    port: 40000,
};

/// Creates context 1 with a termination that talks and listens, and whose caller is on port 40000.
pub const ADD: &[u8] = b"MEGACO/1 [127.0.0.1]:2945 Transaction=1{Context=${Add=${Media{\
    LocalControl{Mode=SendReceive},Local{v=0\nc=IN IP4 $\nm=audio $ RTP/AVP 0\n},\
    Remote{v=0\nc=IN IP4 127.0.0.1\nm=audio 40000 RTP/AVP 0\n}}}}}";

pub const HEARTBEAT: &[u8] =
    b"MEGACO/1 [127.0.0.1]:2945 Transaction=2{Context=-{AuditValue=ROOT{Audit{}}}}";

/// A session: its setup, the datagrams that arrive, the calls that fail, and the lines that drive it.
#[derive(Drop)]
pub struct Session<'a> {
    /// The addresses that may send messages. If the list is empty, any address may send messages.
    pub controllers: &'a [[u8; 4]],
    pub symmetric_rtp: bool,
    pub journal: Option<Durability>,
    pub fence: Option<Fence>,
    /// The title of the recording. Without a title, the session is not recorded.
    pub title: Option<&'a [u8]>,
    /// The number of seconds between two reports; 0 disables reports.
    pub seconds: u16,
    /// The number of microseconds by which the clock of the metrics advances at each reading. If it is `None`, the
    /// clock can't be read.
    pub step: Option<u64>,
    /// The datagrams that are waiting, each with its socket, source and bytes.
    pub waiting: &'a [(usize, Peer, &'a [u8])],
    /// The sequence numbers of the caller's RTP packets, which are waiting at the first media socket.
    pub packets: &'a [u8],
    /// The numbers of the receives and sends that fail.
    pub failing: &'a [u64],
    /// The calls on the journal's file that fail: their kind, the number of the first call, and the number of calls.
    pub faults: &'a [(FileCall, u64, u64)],
    /// The ticks after which a renewal of the journal is due, counted from 1.
    pub renewals: &'a [u64],
    /// The text with which a renewed journal begins, and the number that messages had reached at the start.
    pub head: &'a [u8],
    pub reached: u32,
    /// The parts of the input, each with the number of its repetitions.
    pub lines: &'a [(usize, &'a [u8])],
    /// Whether the session is driven by a clock that is late, and not by lines.
    pub by_clock: bool,
    /// The number of reads of the input that succeed.
    pub reads: usize,
    /// The number of writes to the output that succeed.
    pub writes: usize,
}

/// A session without lines, in which nothing arrives and nothing fails.
pub const SESSION: Session<'static> = Session {
    controllers: &[],
    symmetric_rtp: false,
    journal: None,
    fence: None,
    title: None,
    seconds: 0,
    step: None,
    waiting: &[],
    packets: &[],
    failing: &[],
    faults: &[],
    renewals: &[],
    head: b"",
    reached: 0,
    lines: &[],
    by_clock: false,
    reads: usize::MAX,
    writes: usize::MAX,
};

/// The output of a session's monitors.
#[derive(Drop)]
pub struct Seen {
    pub reports: Vec<u8>,
    /// The last metrics text, and the number of texts.
    pub metrics: Vec<u8>,
    pub texts: usize,
    /// The last report about the journal.
    pub journal: JournalReport,
}

/// The outcome of a session.
#[derive(Drop)]
pub struct Outcome {
    pub result: Result<Counts, RunFault>,
    pub printed: Vec<u8>,
    pub seen: Seen,
    pub call_log: String,
    /// The last datagram that was sent.
    pub last_sent: Vec<u8>,
    /// The text in the journal's file, and the number of its bytes that are synced.
    pub text: Vec<u8>,
    pub synced: usize,
}

/// The configuration of a gateway with two media ports.
pub fn config() -> Config {
    Config {
        slots: 2,
        ..Config::default()
    }
}

/// Creates a gateway with this configuration, which is valid.
pub fn core(alloc: Global, config: Config) -> Result<Core, AllocError>
    ensures sound { OnOk result (IsValidConfig config) }
{
    match Core::new(alloc, config) {
        Ok(core) => Ok(core),
        Err(_) => Err(AllocError),
    }
}

/// Joins the texts. Each text is repeated as often as the number in front of it says.
pub fn repeated(alloc: Global, parts: &[(usize, &[u8])]) -> Result<Vec<u8>, AllocError> {
    let mut text = Vec::new(alloc);
    for (count, part) in parts {
        for _ in 0..*count {
            text.extend_from_slice(part)?;
        }
    }
    Ok(text)
}

/// Returns an RTP packet of 160 samples with payload type 0.
fn packet(sequence: u8) -> [u8; 172] {
    let mut packet = [0xff; 172];
    packet[..12].copy_from_slice(&[0x80, 0, 0, sequence, 0, 0, 0, 0, 0, 0, 0, 9]);
    packet
}

/// Returns the datagrams that are waiting for a session.
fn arrivals_for(alloc: Global, session: &Session<'_>) -> Result<Vec<Arrival>, AllocError> {
    let mut arrivals = Vec::new(alloc);
    for (socket, source, bytes) in session.waiting {
        arrivals.push(Arrival {
            socket: *socket,
            source: *source,
            payload: Payload::new(alloc, bytes)?,
        })?;
    }
    for sequence in session.packets {
        arrivals.push(Arrival {
            socket: 1,
            source: CALLER,
            payload: Payload::new(alloc, &packet(*sequence))?,
        })?;
    }
    Ok(arrivals)
}

/// Returns the faults of the journal's file.
fn faults_for(alloc: Global, session: &Session<'_>) -> Result<Vec<InjectedFault>, AllocError> {
    let mut faults = Vec::new(alloc);
    for (call, first, count) in session.faults {
        for i in 0..*count {
            faults.push(InjectedFault {
                call: *call,
                number: first.saturating_add(i),
                effect: FaultEffect::Fail(ErrorKind::StorageFull),
            })?;
        }
    }
    Ok(faults)
}

/// Returns the ports of a session, with an empty journal.
fn ports_for(alloc: Global, session: &Session<'_>) -> io::Result<FakePorts> {
    let file = MemoryFile::new(Vec::new(alloc), faults_for(alloc, session)?);
    let journal = Opening::new(file)?.accept()?;
    let arrivals = arrivals_for(alloc, session)?;
    let ports = FakePorts::new(alloc, arrivals, session.failing.to_vec(alloc)?);
    Ok(
        ports
            .with_journal(journal)
            .with_renewals(session.renewals.to_vec(alloc)?),
    )
}

/// Returns the number of occurrences of a byte in the text.
pub fn count(text: &[u8], byte: u8) -> usize {
    text.iter().filter(|b| **b == byte).count()
}

/// For a receive or a send, returns its socket and a letter: `c` for a received datagram, `n` for none, `f` for a
/// failed receive, `a` for an answer, and `p` for a packet. For an append to the journal, returns the number of lines
/// and a letter: `w` if they were written, `s` if they were synced, `r` if they were refused, and `b` if the journal
/// broke. For a renewal, returns the number of lines and `e`, or `u` if it failed. For a late tick, returns 0 and `l`. For a tick
/// that is on time, returns `None`.
fn letter(call: &Call) -> Option<(char, usize)> {
    match call {
        Call::Receive(socket, Receipt::Delivered(_, _)) => Some(('c', *socket)),
        Call::Receive(socket, Receipt::Nothing) => Some(('n', *socket)),
        Call::Receive(socket, Receipt::Failed) => Some(('f', *socket)),
        Call::Send(0, _, _) => Some(('a', 0)),
        Call::Send(socket, _, _) => Some(('p', *socket)),
        Call::BeginTick(Timing::Late) => Some(('l', 0)),
        Call::BeginTick(_) => None,
        Call::Append(lines, durability, outcome) => {
            let letter = match (outcome, durability) {
                (Ok(()), Durability::Written) => 'w',
                (Ok(()), Durability::Synced) => 's',
                (Err(AppendFault::Refused), _) => 'r',
                (Err(AppendFault::Broken), _) => 'b',
            };
            Some((letter, count(lines.as_slice(), b'\n')))
        }
        Call::Renew(text, _, Ok(())) => Some(('e', count(text.as_slice(), b'\n'))),
        Call::Renew(text, _, Err(_)) => Some(('u', count(text.as_slice(), b'\n'))),
    }
}

/// Returns the letter of each call that has one, with the last digit of its socket or number of lines.
fn call_log(alloc: Global, ports: &FakePorts) -> Result<String, AllocError> {
    let mut text = String::new(alloc);
    for call in ports.calls().unwrap_or(&[]) {
        if let Some((letter, socket)) = letter(call) {
            text.push(letter)?;
            text.push(char::from(b'0' + (socket % 10) as u8))?;
        }
    }
    Ok(text)
}

/// Returns the last datagram that was sent, or nothing if none was sent.
fn last_sent(ports: &FakePorts) -> &[u8] {
    for call in ports.calls().unwrap_or(&[]).iter().rev() {
        if let Call::Send(_, _, payload) = call {
            return payload.as_slice();
        }
    }
    &[]
}

/// Runs a new gateway on these ports.
fn serve_on<M: Monitor>(
    alloc: Global,
    session: &Session<'_>,
    ports: &mut FakePorts,
    output: &mut FailingWriter,
    monitor: &mut M,
) -> Result<Result<Counts, RunFault>, AllocError> {
    let config = config();
    let core = core(alloc, config)?;
    let setup = Setup::new(
        config,
        session.controllers,
        session.symmetric_rtp,
        session.journal,
        session.fence,
    )
    .renewing(session.head, session.reached);
    let start = Start {
        alloc,
        setup: &setup,
        core,
        title: session.title,
    };
    if session.by_clock {
        let mut timer = Timer {
            watch: LateClock::new(),
            late: 1,
        };
        let fault = serve_by_clock::<(_, _, _), _>(start, ports, &mut timer, output, monitor);
        return Ok(Err(fault));
    }
    let lines = repeated(alloc, session.lines)?;
    let mut input = FailingReader {
        inner: Cursor::new(lines.as_slice()),
        piece: usize::MAX,
        calls: session.reads,
    };
    Ok(serve::<(_, _, _), _>(start, ports, &mut input, output, monitor))
}

/// Runs a new gateway on these ports, with all monitors.
fn watch(
    alloc: Global,
    session: &Session<'_>,
    ports: &mut FakePorts,
    output: &mut FailingWriter,
    seen: &mut Seen,
) -> Result<Result<Counts, RunFault>, AllocError> {
    let clock = SteadyClock::new(session.step);
    let sink = LastText {
        text: &mut seen.metrics,
        count: &mut seen.texts,
    };
    let journal = LastReport {
        journal: &mut seen.journal,
    };
    let mut monitor = Both {
        first: Reports::new(alloc, session.seconds, &mut seen.reports)?,
        second: Some(Both {
            first: journal,
            second: Some(Metrics::start_now(alloc, &clock, sink, "1.2.3")?),
        }),
    };
    serve_on(alloc, session, ports, output, &mut monitor)
}

/// Runs a session.
pub fn play(alloc: Global, session: &Session<'_>) -> io::Result<Outcome> {
    let mut ports = ports_for(alloc, session)?;
    let mut output = FailingWriter::new(alloc, usize::MAX, session.writes);
    let mut seen = Seen {
        reports: Vec::new(alloc),
        metrics: Vec::new(alloc),
        texts: 0,
        journal: JournalReport {
            lacking: 0,
            failed: 0,
            unjournaled: 0,
            unrenewed: 0,
        },
    };
    let result = watch(alloc, session, &mut ports, &mut output, &mut seen)?;
    let (text, synced) = journal_of(alloc, &ports)?;
    Ok(Outcome {
        result,
        printed: output.written,
        seen,
        call_log: call_log(alloc, &ports)?,
        last_sent: last_sent(&ports).to_vec(alloc)?,
        text,
        synced,
    })
}

/// Returns the content of the journal's file, and the number of its bytes that are synced.
fn journal_of(alloc: Global, ports: &FakePorts) -> Result<(Vec<u8>, usize), AllocError> {
    let Some(file) = ports.journal_file() else {
        return Ok((Vec::new(alloc), 0));
    };
    Ok((file.bytes().to_vec(alloc)?, file.synced().len()))
}
