ghost use Rattle.std.specs.Prelude.{◌≡◌, ◌≤◌, ℕ, true, List, length, map, slice_set, option_and_then, Some, None, IfOk, IfSome};
ghost use Rattle.std.specs.Option.{option_map};
ghost use Rattle.mg_host.specs.declared.host_call.HostCall.TheVariants.{OpenJournal, OpenText, OnPorts, Reported};
ghost use Rattle.mg_host.specs.HostCalls.{Grows, mark_all};
ghost use Rattle.mg_ports.specs.declared.call.Call.TheVariants.{Receive, Send, Append};
ghost use Rattle.mg_ports.specs.Calls.{receipt_of};
ghost use Rattle.mg_clock.specs.Ticks.{clock_seen};

use crate::clocks::Clocks;
use crate::dates::Dates;
use crate::fake_watch::FakeWatch;
use crate::host::Host;
use crate::host_call::HostCall;
use crate::host_log::HostLog;
use crate::journals::Journals;
use crate::sockets::Sockets;
use crate::tells::Tells;
use crate::texts::Texts;
use crate::unsent::Unsent;
use mg_journal::MemoryFile;
use mg_ports::{AppendFault, Arrival, Call, Durability, Payload, Peer, PortFault, Receipt, Timing};
use std::alloc::{AllocError, Global};
use std::collections::VecDeque;
use std::io::{self, ErrorKind};

/// A host in memory, for tests. Each of its files can be opened once, under any path. Every port can be bound, and every
/// send succeeds. The date isn't known. Each call is logged, as long as there is memory for it.
#[derive(Drop)]
pub struct FakeHost {
    alloc: Global,
    journal: Option<Vec<u8>>,
    text: Option<Vec<u8>>,
    waiting: Vec<Arrival>,
    log: HostLog,
    stopped: Option<FakeWatch>,
}

/// Copies the bytes of a file, if it was opened.
fn copy(alloc: Global, bytes: Option<&[u8]>) -> Result<Option<Payload>, AllocError>
    ensures value { IfOk result (λ copy. copy ≡ option_map (λ b. b.now) bytes.entry) }
{
    match bytes {
        Some(bytes) => Ok(Some(Payload::new(alloc, bytes)?)),
        None => Ok(None),
    }
}

/// Returns the call that opened a journal, or failed to, or `None` if there is no memory for the call.
fn journal_call(alloc: Global, path: &str, bytes: Option<&[u8]>) -> Option<HostCall>
    ensures value { IfSome result (λ call. call ≡ OpenJournal path.now (option_map (λ b. b.now) bytes.entry)) }
{
    let path = Payload::new(alloc, path.as_bytes()).ok()?;
    let bytes = copy(alloc, bytes).ok()?;
    Some(HostCall::OpenJournal(path, bytes))
}

/// Returns the call that opened a file to be read, or failed to, or `None` if there is no memory for the call.
fn text_call(alloc: Global, path: &str, bytes: Option<&[u8]>) -> Option<HostCall>
    ensures value { IfSome result (λ call. call ≡ OpenText path.now (option_map (λ b. b.now) bytes.entry)) }
{
    let path = Payload::new(alloc, path.as_bytes()).ok()?;
    let bytes = copy(alloc, bytes).ok()?;
    Some(HostCall::OpenText(path, bytes))
}

/// Returns the call of a receive, with a copy of its bytes.
fn receive_call(
    alloc: Global,
    socket: usize,
    answer: Result<Option<(usize, Peer)>, PortFault>,
    buffer: &[u8],
) -> Result<HostCall, AllocError>
    requires within { IfOk answer (λ received. IfSome received (λ d. d.0 ≤ length buffer.now)) }
    ensures value { IfOk result (λ call. call ≡ OnPorts (Receive socket (receipt_of answer buffer.now))) }
{
    let receipt = match answer {
        Ok(Some((n, source))) => Receipt::Delivered(source, Payload::new(alloc, &buffer[..n])?),
        Ok(None) => Receipt::Nothing,
        Err(_) => Receipt::Failed,
    };
    Ok(HostCall::OnPorts(Call::Receive(socket, receipt)))
}

impl FakeHost {
    /// Creates a host with a file for a journal and a file to be read. A file that is `None` can't be opened. These
    /// datagrams are waiting, in this order at each socket.
    pub fn new(
        alloc: Global,
        journal: Option<Vec<u8>>,
        text: Option<Vec<u8>>,
        waiting: Vec<Arrival>,
    ) -> Self {
        FakeHost {
            alloc,
            journal,
            text,
            waiting,
            log: HostLog::new(alloc),
            stopped: None,
        }
    }

    /// Returns the calls so far, or `None` if there was no memory for one of the calls.
    pub fn calls(&self) -> Option<&[HostCall]> {
        self.log.calls()
    }

    /// Removes and returns the first datagram that is waiting at a socket, or returns `None` if none is waiting there.
    fn take_next(&mut self, socket: usize, buffer: &mut [u8]) -> Option<(usize, Peer)>
        ensures log { self.new.log ≡ self.old.log }
        ensures within { IfSome result (λ d. d.0 ≤ length buffer.new) }
    {
        let at = self
            .waiting
            .iter()
            .position(|arrival| arrival.socket == socket)?;
        let arrival = self.waiting.remove(at);
        let bytes = arrival.payload.as_slice();
        let n = bytes.len().min(buffer.len());
        buffer[..n].copy_from_slice(&bytes[..n]);
        Some((n, arrival.source))
    }
}

impl Tells for FakeHost {
    ghost calls = { λ h. h.log };

    fn log_append(
        &mut self,
        lines: &[u8],
        durability: Durability,
        outcome: Result<(), AppendFault>,
    ) {
        let call = match Payload::new(self.alloc, lines) {
            Ok(lines) => Some(HostCall::OnPorts(Call::Append(lines, durability, outcome))),
            Err(_) => None,
        };
        self.log.add(call);
    }

    fn log_renewal(
        &mut self,
        text: &[u8],
        durability: Durability,
        outcome: Result<(), AppendFault>,
    ) {
        let call = match Payload::new(self.alloc, text) {
            Ok(text) => Some(HostCall::OnPorts(Call::Renew(text, durability, outcome))),
            Err(_) => None,
        };
        self.log.add(call);
    }
}

impl Journals for FakeHost {
    type File = MemoryFile;

    fn open_journal(&mut self, path: &str) -> io::Result<MemoryFile> {
        let Some(bytes) = self.journal.take() else {
            self.log.add(journal_call(self.alloc, path, None));
            return Err(io::Error::from(ErrorKind::NotFound));
        };
        let call = journal_call(self.alloc, path, Some(bytes.as_slice()));
        self.log.add(call);
        Ok(MemoryFile::new(bytes, Vec::new(self.alloc)))
    }
}

impl Texts for FakeHost {
    type Text = VecDeque<u8>;

    fn open_text(&mut self, path: &str) -> io::Result<VecDeque<u8>> {
        let Some(bytes) = self.text.take() else {
            self.log.add(text_call(self.alloc, path, None));
            return Err(io::Error::from(ErrorKind::NotFound));
        };
        let call = text_call(self.alloc, path, Some(bytes.as_slice()));
        self.log.add(call);
        Ok(VecDeque::from(bytes))
    }
}

/// Marks a socket, if it has a mark.
fn mark(marks: &mut [bool], socket: usize)
    ensures value { marks.new ≡ slice_set marks.old socket true }
{
    if socket < marks.len() {
        marks[socket] = true;
    }
}

/// Logs and marks the sockets at which datagrams are waiting.
fn report(waiting: &[Arrival], log: &mut HostLog, marks: &mut [bool])
    ensures reported { (sockets : List ℕ) × Grows log.old log.new (map Reported sockets)
        × (marks.new ≡ mark_all sockets marks.old) }
{
    for arrival in waiting.iter() {
        log.add(Some(HostCall::Reported(arrival.socket)));
        mark(marks, arrival.socket);
    }
}

impl Sockets for FakeHost {
    fn bind(&mut self, address: [u8; 4], port: u16) -> io::Result<()> {
        self.log.add(Some(HostCall::Bind(address, port, true)));
        Ok(())
    }

    fn bind_also(&mut self, address: [u8; 4], port: u16) -> io::Result<()> {
        self.log.add(Some(HostCall::BindAlso(address, port, true)));
        Ok(())
    }

    fn poll(&mut self, marks: &mut [bool]) -> io::Result<()> {
        report(self.waiting.as_slice(), &mut self.log, marks);
        self.log.add(Some(HostCall::Poll(true)));
        Ok(())
    }

    fn receive(
        &mut self,
        socket: usize,
        buffer: &mut [u8],
    ) -> Result<Option<(usize, Peer)>, PortFault> {
        let answer = Ok(self.take_next(socket, buffer));
        self.log
            .add(receive_call(self.alloc, socket, answer, buffer).ok());
        answer
    }

    fn send(&mut self, socket: usize, to: Peer, bytes: &[u8]) -> Result<(), PortFault> {
        let call = match Payload::new(self.alloc, bytes) {
            Ok(bytes) => Some(HostCall::OnPorts(Call::Send(socket, to, bytes))),
            Err(_) => None,
        };
        self.log.add(call);
        Ok(())
    }

    fn log_unreported(&mut self, socket: usize) {
        self.log.add(Some(HostCall::NotReported(socket)));
    }

    fn log_unsent(&mut self, socket: usize, to: Peer, bytes: &[u8], cause: Unsent) {
        let call = match Payload::new(self.alloc, bytes) {
            Ok(bytes) => Some(HostCall::NotSent(socket, to, bytes, cause)),
            Err(_) => None,
        };
        self.log.add(call);
    }

    fn log_tick(&mut self, timing: Timing) {
        self.log
            .add(Some(HostCall::OnPorts(Call::BeginTick(timing))));
    }
}

impl Clocks for FakeHost {
    type Watch = FakeWatch;

    ghost stopped = { λ h. clock_seen (option_and_then (λ w. Some w.readings.items) h.stopped) None };

    fn watch(&mut self) -> io::Result<FakeWatch> {
        Ok(FakeWatch::new(self.alloc))
    }

    fn stop(&mut self, watch: FakeWatch) {
        self.stopped = Some(watch);
    }
}

impl Dates for FakeHost {
    fn millis(&mut self) -> Option<u64> {
        self.log.add(Some(HostCall::ReadDate(None)));
        None
    }
}

impl Host for FakeHost {}
