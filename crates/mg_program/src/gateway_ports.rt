ghost use Rattle.std.specs.Prelude.{◌≡◌, false, OnErr};
ghost use Rattle.std.specs.Option.{option_map_or};
ghost use Rattle.mg_journal.specs.Journal.{no_journal};
ghost use Rattle.mg_journal.specs.Text.{EndsInLineFeed};
ghost use Rattle.mg_ports.specs.Calls.{IsCounted};
ghost use Rattle.mg_dates.specs.aids.Texts.{Extends};
ghost use Rattle.mg_ports.specs.Journaled.{AppendsDated, RenewsDated};
ghost use Rattle.mg_host.specs.HostCalls.{port_calls};
ghost use Rattle.mg_program.specs.Decisions.{HasDecided, knows};

use crate::log_key::LogKey;
use crate::receiving::{ALL_READY, SOCKETS, receive_reported};
use crate::renewals::Renewals;
use crate::sending::{count_cause, send_in_time};
use mg_core::Peer;
use mg_dates::DatedJournal;
use mg_host::{Environment, Journals, Sockets};
use mg_journal::{AppendFault, Durability, FileJournal, Journal};
use mg_ports::{Batch, FailureCauses, PortFault, Ports, Timing};
use std::marker::PhantomData;
use std::time::Clock;

/// The ports of a gateway: the sockets of its host, and its journal, if it has one.
#[derive(Drop)]
pub(crate) struct GatewayPorts<'a, H: Sockets, J: Journal, C: Clock, K: LogKey> {
    pub(crate) host: H,
    pub(crate) journal: Option<DatedJournal<'a, J, C>>,
    /// Whether the tick whose packets are being sent is on time.
    timing: Timing,
    /// The sockets at which a datagram may be waiting.
    ready: [bool; SOCKETS],
    renewals: Renewals,
    failures: u64,
    causes: FailureCauses,
    of: PhantomData<K>,
    ghost decided: { HasDecided K.calls (H.calls host) (knows timing ready false) },
}

/// The ports of a gateway in this environment.
pub(crate) type PortsOf<'a, E, K> = GatewayPorts<
    'a,
    <E as Environment>::Host,
    FileJournal<<<E as Environment>::Host as Journals>::File>,
    <E as Environment>::Clock,
    K,
>;

/// Appends the lines of a batch to the journal, or fails if there is no journal.
fn append<J: Journal, C: Clock>(
    journal: &mut Option<DatedJournal<'_, J, C>>,
    batch: Batch,
    lines: &[u8],
    durability: Durability,
) -> Result<(), AppendFault>
    requires line_feed { EndsInLineFeed lines.now }
    ensures value { AppendsDated lines.now durability (option_map_or (λ d. d) journal.old no_journal)
        (option_map_or (λ d. d) journal.new no_journal) result }
{
    match journal {
        Some(journal) => journal.append(batch, lines, durability),
        None => Err(AppendFault::Broken),
    }
}

/// Replaces the journal, or fails if there is no journal.
fn renew<J: Journal, C: Clock>(
    journal: &mut Option<DatedJournal<'_, J, C>>,
    text: &mut Vec<u8>,
    durability: Durability,
) -> Result<(), AppendFault>
    requires line_feed { EndsInLineFeed text.old.items }
    ensures value { RenewsDated text.old.items durability (option_map_or (λ d. d) journal.old no_journal)
        (option_map_or (λ d. d) journal.new no_journal) result }
    ensures front { Extends text.old.items text.new.items }
{
    match journal {
        Some(journal) => journal.renew(text, durability),
        None => Err(AppendFault::Broken),
    }
}

/// If `answer` is an error, counts it as a failure.
fn count<T, F>(answer: &Result<T, F>, failures: &mut u64)
    ensures fault { OnErr answer.now (IsCounted failures.old failures.new) }
{
    if answer.is_err() {
        *failures = failures.saturating_add(1);
    }
}

impl<'a, H: Sockets, J: Journal, C: Clock, K: LogKey> GatewayPorts<'a, H, J, C, K> {
    /// Creates ports on the sockets of this host, which must be bound. The journal is renewed after this many messages;
    /// 0 means that their number doesn't matter.
    pub(crate) fn new(host: H, journal: Option<DatedJournal<'a, J, C>>, every: u32) -> Self
        requires begins { H.calls host ≡ K.calls }
        ensures host { result.host ≡ host }
        ensures journal { result.journal ≡ journal.entry }
    {
        GatewayPorts {
            host,
            journal,
            timing: Timing::OnTime,
            ready: ALL_READY,
            renewals: Renewals::new(every),
            failures: 0,
            causes: FailureCauses::default(),
            of: PhantomData,
        }
    }
}

impl<'a, H: Sockets, J: Journal, C: Clock, K: LogKey> Ports for GatewayPorts<'a, H, J, C, K> {
    ghost calls = { λ p. port_calls (H.calls p.host) };

    ghost failed = { λ p. p.failures };

    ghost journal = { λ p. option_map_or (λ d. d) p.journal no_journal };

    fn receive(
        &mut self,
        socket: usize,
        buffer: &mut [u8],
    ) -> Result<Option<(usize, Peer)>, PortFault> {
        let answer = receive_reported(&mut self.host, &mut self.ready, socket, buffer);
        if answer.is_err() {
            self.causes.receives = self.causes.receives.saturating_add(1);
        }
        count(&answer, &mut self.failures);
        answer
    }

    fn send(&mut self, socket: usize, to: Peer, bytes: &[u8]) -> Result<(), PortFault> {
        let sent = send_in_time(&mut self.host, self.timing, socket, to, bytes);
        count_cause(&sent, &mut self.causes);
        count(&sent, &mut self.failures);
        match sent {
            Ok(()) => Ok(()),
            Err(_) => Err(PortFault),
        }
    }

    fn begin_tick(&mut self, timing: Timing) {
        self.host.log_tick(timing);
        self.timing = timing;
    }

    fn append(
        &mut self,
        batch: Batch,
        lines: &[u8],
        durability: Durability,
    ) -> Result<(), AppendFault> {
        let outcome = append(&mut self.journal, batch, lines, durability);
        self.host.log_append(lines, durability, outcome);
        self.renewals.count(batch, outcome.is_ok());
        outcome
    }

    fn is_renewal_due(&mut self) -> bool {
        match &mut self.journal {
            Some(journal) => self.renewals.tick(journal),
            None => false,
        }
    }

    fn renew(&mut self, text: &mut Vec<u8>, durability: Durability) -> Result<(), AppendFault> {
        let len = text.as_slice().len();
        let outcome = renew(&mut self.journal, text, durability);
        self.host
            .log_renewal(&text.as_slice()[..len], durability, outcome);
        self.renewals.end(outcome.is_ok());
        outcome
    }

    fn failures(&self) -> u64 {
        self.failures
    }

    fn failure_causes(&self) -> FailureCauses {
        self.causes
    }
}
