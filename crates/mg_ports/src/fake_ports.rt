ghost use Rattle.std.specs.Prelude.{◌≡◌, ◌≤◌, ◌++◌, codes, length, IfOk, IfSome, OnErr, OnOk};
ghost use Rattle.std.specs.Option.{option_map_or};
ghost use Rattle.mg_journal.specs.Journal.{no_journal};
ghost use Rattle.mg_ports.specs.Calls.{IsCounted, receipt_of};
ghost use Rattle.mg_ports.specs.Journaled.{RenewsDated};

use crate::arrival::Arrival;
use crate::batch::Batch;
use crate::call::Call;
use crate::failure_causes::FailureCauses;
use crate::log::Log;
use crate::payload::Payload;
use crate::port_fault::PortFault;
use crate::ports::Ports;
use crate::receipt::Receipt;
use mg_chain::{END, FOLLOWS};
use mg_clock::Timing;
use mg_journal::{AppendFault, Durability, FileJournal, Journal, MemoryFile};
use mg_words::Peer;
use std::alloc::{AllocError, Global};

/// In-memory ports for tests. Each call is logged, as long as there is memory for it. The ports have no journal unless
/// one is added; it is appended to and renewed without dates, and renewals are due after chosen ticks.
#[derive(Drop)]
pub struct FakePorts {
    alloc: Global,
    waiting: Vec<Arrival>,
    failing: Vec<u64>,
    made: u64,
    failures: u64,
    journal: Option<FileJournal<MemoryFile>>,
    ticks: u64,
    renewals: Vec<u64>,
    log: Log,
}

/// Returns the result of a receive, with a copy of its bytes.
fn receipt_of(
    alloc: Global,
    answer: Result<Option<(usize, Peer)>, PortFault>,
    buffer: &[u8],
) -> Result<Receipt, AllocError>
    requires within { IfOk answer (λ received. IfSome received (λ d. d.0 ≤ length buffer.now)) }
    ensures value { IfOk result (λ r. r ≡ receipt_of answer buffer.now) }
{
    match answer {
        Ok(Some((n, source))) => Ok(Receipt::Delivered(source, Payload::new(alloc, &buffer[..n])?)),
        Ok(None) => Ok(Receipt::Nothing),
        Err(_) => Ok(Receipt::Failed),
    }
}

/// Appends to a text the line with this hash, which says what the text follows. If there is no memory, fails.
fn push_follows(end: &[u8; END], text: &mut Vec<u8>) -> Result<(), AllocError>
    ensures value { OnOk result (text.new.items ≡ text.old.items ++ (codes "# follows " ++ end.now)) }
{
    text.extend_from_slice(FOLLOWS)?;
    text.extend_from_slice(end)
}

/// Replaces a journal by one with this text, and with the line that says what the text follows.
fn renew_joined(
    journal: &mut Option<FileJournal<MemoryFile>>,
    text: &mut Vec<u8>,
    durability: Durability,
) -> Result<(), AppendFault>
    ensures value { RenewsDated text.old.items durability (option_map_or (λ j. j) journal.old no_journal)
        (option_map_or (λ j. j) journal.new no_journal) result }
{
    let end = journal.seal_end();
    let Ok(()) = push_follows(&end, text) else {
        return Err(AppendFault::Refused);
    };
    journal.renew(text.as_slice(), "", durability)
}

impl FakePorts {
    /// Creates ports with these datagrams waiting, in this order at each socket. `failing` lists the numbers of the
    /// receives and sends that fail, counted from 0 across all sockets.
    pub fn new(alloc: Global, waiting: Vec<Arrival>, failing: Vec<u64>) -> Self {
        FakePorts {
            alloc,
            waiting,
            failing,
            made: 0,
            failures: 0,
            journal: None,
            ticks: 0,
            renewals: Vec::new(alloc),
            log: Log::new(alloc),
        }
    }

    /// Adds a journal to these ports.
    pub fn with_journal(self, journal: FileJournal<MemoryFile>) -> Self {
        FakePorts {
            journal: Some(journal),
            ..self
        }
    }

    /// Makes a renewal of the journal due after these ticks, counted from 1.
    pub fn with_renewals(self, renewals: Vec<u64>) -> Self {
        FakePorts { renewals, ..self }
    }

    /// Returns the file of the journal, or `None` if there is no journal.
    pub fn journal_file(&self) -> Option<&MemoryFile> {
        match &self.journal {
            Some(journal) => Some(journal.file()),
            None => None,
        }
    }

    /// Returns the calls so far, or `None` if there was no memory for one of the calls.
    pub fn calls(&self) -> Option<&[Call]> {
        self.log.calls()
    }

    /// Begins a receive or a send. Fails if the call's number is in the list of calls that fail.
    fn begin(&mut self) -> Result<(), PortFault>
        ensures log { self.new.log ≡ self.old.log }
        ensures journal { self.new.journal ≡ self.old.journal }
        ensures fault { OnErr result (IsCounted self.old.failures self.new.failures) }
    {
        let number = self.made;
        self.made = self.made.wrapping_add(1);
        if self.failing.iter().any(|n| *n == number) {
            self.failures = self.failures.saturating_add(1);
            return Err(PortFault);
        }
        Ok(())
    }

    /// Removes and returns the first datagram that is waiting at a socket, or returns `None` if none is waiting there.
    /// Fails if the receive's number is in the list of calls that fail.
    fn take_next(
        &mut self,
        socket: usize,
        buffer: &mut [u8],
    ) -> Result<Option<(usize, Peer)>, PortFault>
        ensures log { self.new.log ≡ self.old.log }
        ensures journal { self.new.journal ≡ self.old.journal }
        ensures within { IfOk result (λ received. IfSome received (λ d. d.0 ≤ length buffer.new)) }
        ensures fault { OnErr result (IsCounted self.old.failures self.new.failures) }
    {
        self.begin()?;
        let Some(at) = self
            .waiting
            .iter()
            .position(|arrival| arrival.socket == socket)
        else {
            return Ok(None);
        };
        let arrival = self.waiting.remove(at);
        let bytes = arrival.payload.as_slice();
        let n = bytes.len().min(buffer.len());
        buffer[..n].copy_from_slice(&bytes[..n]);
        Ok(Some((n, arrival.source)))
    }
}

impl Ports for FakePorts {
    ghost calls = { λ p. p.log };

    ghost failed = { λ p. p.failures };

    ghost journal = { λ p. option_map_or (λ j. j) p.journal no_journal };

    fn receive(
        &mut self,
        socket: usize,
        buffer: &mut [u8],
    ) -> Result<Option<(usize, Peer)>, PortFault> {
        let answer = self.take_next(socket, buffer);
        let call = match receipt_of(self.alloc, answer, buffer) {
            Ok(receipt) => Some(Call::Receive(socket, receipt)),
            Err(_) => None,
        };
        self.log.add_call(call);
        answer
    }

    fn send(&mut self, socket: usize, to: Peer, bytes: &[u8]) -> Result<(), PortFault> {
        let answer = self.begin();
        let call = match Payload::new(self.alloc, bytes) {
            Ok(bytes) => Some(Call::Send(socket, to, bytes)),
            Err(_) => None,
        };
        self.log.add_call(call);
        answer
    }

    fn begin_tick(&mut self, timing: Timing) {
        self.ticks = self.ticks.wrapping_add(1);
        self.log.add_call(Some(Call::BeginTick(timing)));
    }

    fn append(
        &mut self,
        _batch: Batch,
        lines: &[u8],
        durability: Durability,
    ) -> Result<(), AppendFault> {
        let answer = self.journal.append(lines, durability);
        let call = match Payload::new(self.alloc, lines) {
            Ok(lines) => Some(Call::Append(lines, durability, answer)),
            Err(_) => None,
        };
        self.log.add_call(call);
        answer
    }

    fn renew(&mut self, text: &mut Vec<u8>, durability: Durability) -> Result<(), AppendFault> {
        let copy = Payload::new(self.alloc, text.as_slice());
        let answer = renew_joined(&mut self.journal, text, durability);
        let call = match copy {
            Ok(text) => Some(Call::Renew(text, durability, answer)),
            Err(_) => None,
        };
        self.log.add_call(call);
        answer
    }

    fn is_renewal_due(&mut self) -> bool {
        self.renewals.contains(&self.ticks)
    }

    fn failures(&self) -> u64 {
        self.failures
    }

    fn failure_causes(&self) -> FailureCauses {
        FailureCauses::default()
    }
}
