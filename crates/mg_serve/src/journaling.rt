ghost use Rattle.std.specs.Prelude.{◌≡◌, ◌^◌, ◌<◌, ◌≤◌, ◌+◌, ◌∷◌, [], IfOk, IsSome, OnOk, Some};
ghost use Rattle.mg_core.specs.Counted.{ticks_line};
ghost use Rattle.mg_core.specs.World.{World};
ghost use Rattle.mg_core.specs.aids.Stands.{StandsFor};
ghost use Rattle.mg_core.specs.declared.event.Event.TheVariants as events;
ghost use Rattle.mg_core.specs.Recording.{IsDatagram};
ghost use Rattle.mg_journal.specs.Text.{EndsInLineFeed};
ghost use Rattle.mg_ports.specs.declared.call.Call.TheVariants.{Append};
ghost use Rattle.mg_ports.specs.Calls.{Grows};
ghost use Rattle.mg_ports.specs.Journaled.{AppendsDated, ports_seen};
ghost use Rattle.mg_serve.specs.Fenced.{after_message};
ghost use Rattle.mg_serve.specs.Trace.{Happened};
ghost use Rattle.mg_serve.specs.aids.Journaling.{AppendsBefore, AppendsTicks, EndsTick, Renewed, RenewsIfDue, with_tick};

use crate::fencing::Fencing;
use crate::journal_report::JournalReport;
use crate::renewal::renewal_text;
use crate::setup::Setup;
use mg_core::{Core, EventLine, Peer, is_oversized, ticks_line};
use mg_journal::{AppendFault, Durability};
use mg_ports::{Batch, Ports};
use std::alloc::{AllocError, Global};
use std::marker::Model;

/// The number of ticks that the journal may lack before they are appended: 0.2 seconds' worth. A `heard --never` that
/// follows the journal reports a broken rule only after the journal has the tick after the message.
const TOGETHER: u64 = 10;

/// The state of a session's journal, such as the number of ticks that it lacks, and the session's fence. A session may
/// have no journal, and no fence.
///
/// A message is appended before it is handled, unless it is oversized. Ticks are appended five times a second, and
/// before each message. The journal is renewed after ticks, if the ports say that this is due.
#[derive(Drop)]
pub struct Journaling {
    durability: Option<Durability>,
    lacking: u64,
    /// The number of ticks since an append was last tried.
    untried: u64,
    fencing: Fencing,
    line: EventLine,
    failed: u64,
    /// Renewals that failed.
    unrenewed: u64,
}

impl Model for Journaling {
    ghost use Rattle.std.specs.Prelude.{◌≤◌, ◌<◌};
    ghost use Rattle.mg_serve.specs.aids.Outside.{JournalView};

    ghost Value = { JournalView };

    ghost view = { λ j.
        record { durability = j.durability; lacking = j.lacking; untried = j.untried; fencing = j.fencing } };

    ghost invariant = { λ j. (j.untried ≤ j.lacking) × (j.untried < 10) };
}

/// Appends the lines of a batch, and counts the append if it fails.
fn append<P: Ports>(
    ports: &mut P,
    batch: Batch,
    lines: &[u8],
    durability: Durability,
    failed: &mut u64,
) -> Result<(), AppendFault>
    requires line_feed { EndsInLineFeed lines.now }
    ensures logged { Grows (P.calls ports.old) (P.calls ports.new) (Append lines.now durability result ∷ []) }
    ensures journal { AppendsDated lines.now durability (P.journal ports.old) (P.journal ports.new) result }
{
    let result = ports.append(batch, lines, durability);
    if result.is_err() {
        *failed = failed.saturating_add(1);
    }
    result
}

/// Appends the line for ticks.
fn append_line<P: Ports>(ports: &mut P, ticks: u64, failed: &mut u64) -> Result<(), AppendFault>
    ensures logged { Grows (P.calls ports.old) (P.calls ports.new)
        (Append (ticks_line ticks) Durability.Written result ∷ []) }
    ensures journal { AppendsDated (ticks_line ticks) Durability.Written (P.journal ports.old) (P.journal ports.new)
        result }
{
    append(
        ports,
        Batch::Ticks(ticks),
        ticks_line(ticks).as_slice(),
        Durability::Written,
        failed,
    )
}

impl Journaling {
    /// Starts with a journal that lacks no ticks. Messages are appended with this durability; `None` means that there
    /// is no journal. Of the other calls, only a renewal allocates.
    pub fn new(
        alloc: Global,
        durability: Option<Durability>,
        fencing: Fencing,
    ) -> Result<Self, AllocError>
        ensures value { IfOk result (λ j.
            j ≡ record { durability = durability; lacking = 0; untried = 0; fencing = fencing }) }
    {
        Ok(Journaling {
            durability,
            lacking: 0,
            untried: 0,
            fencing,
            line: EventLine::new(alloc)?,
            failed: 0,
            unrenewed: 0,
        })
    }

    /// Returns the fence and the number that messages have reached.
    pub fn fencing(&self) -> Fencing
        ensures value { result ≡ self.now.fencing }
    {
        self.fencing
    }

    /// Raises the fence and the number reached after a message was run.
    pub fn pass(&mut self, number: Option<u32>)
        ensures value { self.new ≡ record self.old { fencing = after_message number self.old.fencing } }
    {
        self.fencing = self.fencing.after_message(number);
    }

    /// Returns the report about the journal for a monitor, given the number of messages that were dropped because an
    /// append failed.
    pub fn report(&self, unjournaled: u64) -> JournalReport
        ensures value { result.lacking ≡ self.now.lacking }
    {
        JournalReport {
            lacking: self.lacking,
            failed: self.failed,
            unjournaled,
            unrenewed: self.unrenewed,
        }
    }

    /// Appends a line for the ticks that the journal lacks.
    fn append_ticks<P: Ports>(&mut self, ports: &mut P) -> Result<(), AppendFault>
        requires journal { IsSome self.old.durability }
        requires some { 0 < self.old.lacking }
        ensures few { self.new.lacking ≤ self.old.lacking }
        ensures tried { self.new.untried ≡ 0 }
        ensures none { OnOk result (self.new.lacking ≡ 0) }
        ensures value { AppendsTicks result (ports_seen (P.calls ports.old) (P.journal ports.old))
            (ports_seen (P.calls ports.new) (P.journal ports.new)) self.old self.new }
    {
        self.untried = 0;
        if let Err(fault) = append_line(ports, self.lacking, &mut self.failed) {
            return Err(fault);
        }
        self.lacking = 0;
        Ok(())
    }

    /// If the journal lacks ticks, appends a line for these ticks.
    fn append_lacking<P: Ports>(&mut self, ports: &mut P) -> Result<(), AppendFault>
        requires journal { IsSome self.old.durability }
        ensures few { self.new.lacking ≤ self.old.lacking }
        ensures tried { self.new.untried ≡ 0 }
        ensures none { OnOk result (self.new.lacking ≡ 0) }
        ensures value { AppendsBefore [] result (ports_seen (P.calls ports.old) (P.journal ports.old))
            (ports_seen (P.calls ports.new) (P.journal ports.new)) self.old self.new }
    {
        if self.lacking == 0 {
            return Ok(());
        }
        self.append_ticks(ports)
    }

    /// Appends all ticks that the journal lacks, and then a message that is about to be handled. Fails if an append
    /// fails. Does nothing without a journal, or if the message is oversized: nothing follows from it but an error in
    /// the answer.
    pub fn announce<P: Ports>(
        &mut self,
        ports: &mut P,
        source: Peer,
        bytes: &[u8],
    ) -> Result<(), AppendFault>
        requires datagram { IsDatagram source bytes.now }
        ensures few { self.new.lacking ≤ self.old.lacking }
        ensures value { AppendsBefore (Happened (events.Control source bytes.now) ∷ []) result
            (ports_seen (P.calls ports.old) (P.journal ports.old))
            (ports_seen (P.calls ports.new) (P.journal ports.new)) self.old self.new }
    {
        let Some(durability) = self.durability else {
            return Ok(());
        };
        if is_oversized(bytes) {
            return Ok(());
        }
        if let Err(fault) = self.append_lacking(ports) {
            return Err(fault);
        }
        self.line.control(source, bytes);
        self.untried = 0;
        append(
            ports,
            Batch::Message,
            self.line.as_slice(),
            durability,
            &mut self.failed,
        )
    }

    /// Counts a tick that has passed. If the journal lacks at least ten ticks, tries one append. Does nothing without a
    /// journal.
    pub fn end_tick<P: Ports>(&mut self, ports: &mut P)
        requires few { self.old.lacking + 1 < 2 ^ 64 }
        ensures few { self.new.lacking ≤ self.old.lacking + 1 }
        ensures value { EndsTick (ports_seen (P.calls ports.old) (P.journal ports.old))
            (ports_seen (P.calls ports.new) (P.journal ports.new)) self.old self.new }
    {
        if self.durability.is_none() {
            return;
        }
        self.lacking += 1;
        if self.lacking < TOGETHER {
            self.untried += 1;
            return;
        }
        let _ = self.append_ticks(ports);
    }

    /// Renews the journal with a text. If that works, the journal lacks nothing. Otherwise it is unchanged, and the
    /// failure is counted.
    fn renew<P: Ports>(&mut self, ports: &mut P, text: &mut Vec<u8>, durability: Durability)
        requires journal { self.old.durability ≡ Some durability }
        requires tried { self.old.untried ≡ 0 }
        requires line_feed { EndsInLineFeed text.old.items }
        ensures few { self.new.lacking ≤ self.old.lacking }
        ensures value { Renewed text.old.items (ports_seen (P.calls ports.old) (P.journal ports.old))
            (ports_seen (P.calls ports.new) (P.journal ports.new)) self.old self.new }
    {
        match ports.renew(text, durability) {
            Ok(()) => self.lacking = 0,
            Err(_) => self.unrenewed = self.unrenewed.saturating_add(1),
        }
    }

    /// Renews the journal with the gateway's checkpoint if the ports say that this is due. Appends the ticks that the
    /// journal lacks first, so that it ends where the renewed one begins. If that fails, still renews the journal, since a
    /// renewed journal works even if the old one is broken. Counts a failed renewal, after which the journal goes on
    /// unchanged. Does nothing without a journal.
    pub fn renew_if_due<P: Ports>(
        &mut self,
        alloc: Global,
        setup: &Setup<'_>,
        ports: &mut P,
        core: &Core,
    )
        ensures few { self.new.lacking ≤ self.old.lacking }
        ensures value { (w : World) → StandsFor core.now.state w → RenewsIfDue setup.now w
            (ports_seen (P.calls ports.old) (P.journal ports.old))
            (ports_seen (P.calls ports.new) (P.journal ports.new)) self.old self.new }
    {
        let Some(durability) = self.durability else {
            return;
        };
        if !ports.is_renewal_due() {
            return;
        }
        let Some(mut text) = renewal_text(alloc, setup, core, self.fencing.reached) else {
            self.unrenewed = self.unrenewed.saturating_add(1);
            return;
        };
        let _ = self.append_lacking(ports);
        self.renew(ports, &mut text, durability);
    }
}
