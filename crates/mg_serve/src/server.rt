ghost use Rattle.std.specs.Prelude.{◌≡◌, ◌^◌, ◌<◌, ◌≤◌, ◌+◌, ◌-◌, [], ◌∷◌, map, length, true, false, IfErr, IfOk, OnErr, OnOk};
ghost use Rattle.mg_rooms.specs.Limits.{slot_port};
ghost use Rattle.mg_engine.specs.Config.{IsValidConfig, limits_of};
ghost use Rattle.mg_core.specs.Step.{Packet, Step};
ghost use Rattle.mg_core.specs.World.{World, counts_of};
ghost use Rattle.mg_core.specs.aids.Stands.{StandsFor};
ghost use Rattle.mg_words.specs.Leads.{Leads};
ghost use Rattle.mg_ports.specs.declared.call.Call.TheVariants.{Send};
ghost use Rattle.mg_ports.specs.Calls.{Grows};
ghost use Rattle.mg_ports.specs.Journaled.{ports_seen};
ghost use Rattle.mg_serve.specs.Lines.{is_quit};
ghost use Rattle.mg_core.specs.Peer.{peer};
ghost use Rattle.mg_core.specs.Recording.{IsDatagram};
ghost use Rattle.mg_rooms.specs.Registry.{holder_of};
ghost use Rattle.std.specs.Option.{option_and_then, option_map};
ghost use Rattle.mg_serve.specs.Serve.{opening};
ghost use Rattle.mg_serve.specs.Session.{Becomes, Performs, SocketTurn, event_at, send_of};
ghost use Rattle.mg_serve.specs.Setup.{is_admitted, is_remote};
ghost use Rattle.mg_serve.specs.Trace.{Called, Happened};
ghost use Rattle.mg_serve.specs.aids.Driving.{Received};
ghost use Rattle.mg_serve.specs.aids.Printing.{Prints};
ghost use Rattle.mg_serve.specs.aids.Outside.{LeadsByTrace, new_journal, outside};

use crate::command::Command;
use crate::form::Form;
use crate::incoming::Incoming;
use crate::journaling::Journaling;
use crate::monitor::Monitor;
use crate::output::counts_text;
use crate::printer::Printer;
use crate::setup::Setup;
use crate::tick_report::TickReport;
use mg_clock::Timing;
use mg_core::{Answer, Core, Counts, DATAGRAM_LIMIT, Datagram, Peer};
use mg_fence::number_in;
use mg_lines::WriteFailed;
use mg_ports::Ports;
use mg_sdp::Chosen;
use std::alloc::{AllocError, Global};
use std::io::Write;

/// The maximum number of datagrams from one socket in a poll.
const TURN: usize = 64;

/// A gateway that is driven over ports. Calls that need the session's setup receive it as an argument.
#[derive(Drop)]
pub struct Server<'a, M: Monitor> {
    alloc: Global,
    pub core: Core,
    pub printer: Printer,
    pub journal: Journaling,
    monitor: &'a mut M,
    /// Commands that were executed.
    pub lines: u64,
    /// Answers and packets that were sent successfully.
    pub sent: u64,
    /// Control datagrams that were dropped because memory ran out while they were read.
    pub unread: u64,
    /// Control datagrams that were dropped because an append to the journal failed.
    pub unjournaled: u64,
    /// Control datagrams that were dropped because they didn't pass the fence.
    pub stale: u64,
}

/// Sends a datagram, and counts it if the send succeeds.
fn send<P: Ports>(ports: &mut P, socket: usize, to: Peer, bytes: &[u8], sent: &mut u64)
    ensures logged { Grows (P.calls ports.old) (P.calls ports.new) (Send socket to bytes.now ∷ []) }
    ensures journal { P.journal ports.new ≡ P.journal ports.old }
{
    if ports.send(socket, to, bytes).is_ok() {
        *sent = sent.saturating_add(1);
    }
}

/// Returns the socket that a packet is sent from.
fn socket_of(setup: &Setup<'_>, packet: &Datagram) -> usize
    requires sound { IsValidConfig setup.now.config }
    ensures value { Send result packet.now.to packet.now.bytes ≡ send_of setup.now (Packet packet.now) }
{
    let slot = setup.config().limits().slot_at(packet.from);
    usize::from(slot.unwrap_or(0)) + 1
}

/// Sends packets in order. If a send fails, only that packet is lost.
fn send_packets<P: Ports>(ports: &mut P, setup: &Setup<'_>, packets: &[Datagram], sent: &mut u64)
    requires sound { IsValidConfig setup.now.config }
    ensures logged { Grows (P.calls ports.old) (P.calls ports.new)
        (map (λ packet. send_of setup.now (Packet packet)) packets.now) }
    ensures journal { P.journal ports.new ≡ P.journal ports.old }
{
    for packet in packets {
        send(
            ports,
            socket_of(setup, packet),
            packet.to,
            &packet.bytes,
            sent,
        );
    }
}

/// Returns whether a peer has the address and the port of a Remote.
fn is_remote(remote: Option<Chosen>, peer: Peer) -> bool
    ensures value { result ≡ is_remote remote peer }
{
    match remote {
        Some(to) => to.address == peer.address && to.port == peer.port,
        None => false,
    }
}

/// Exposes to a proof the bounds that the types of a datagram's parts imply. Has no effect.
///
/// The proof of a generic function can't use the bounds that the type of a local variable implies.
fn parts_fit(address: &[u8], port: u16, bytes: &[u8])
    requires four { length address.now ≡ 4 }
    requires short { length bytes.now ≤ DATAGRAM_LIMIT }
    ensures fit { IsDatagram (peer address.now port) bytes.now }
{}

/// Returns the port of a media socket. Media sockets are numbered from 1.
fn media_port(setup: &Setup<'_>, socket: u16) -> u16
    requires sound { IsValidConfig setup.now.config }
    requires first { 1 ≤ socket }
    requires last { socket ≤ setup.now.config.slots }
    ensures value { result ≡ slot_port (limits_of setup.now.config) (socket - 1) }
{
    setup.config().limits().slot_port((socket - 1) as u8)
}

impl<'a, M: Monitor> Server<'a, M> {
    /// Creates a server with a gateway and a monitor that watches the server. The journal, if there is one, lacks no
    /// ticks.
    pub fn new(
        alloc: Global,
        core: Core,
        form: Form,
        setup: &Setup<'_>,
        monitor: &'a mut M,
    ) -> Result<Self, AllocError>
        ensures core { IfOk result (λ server. server.core ≡ core) }
        ensures printer { IfOk result (λ server. server.printer ≡ record { form = form; has_failed = false }) }
        ensures journal { IfOk result (λ server. server.journal ≡ new_journal setup.now) }
    {
        Ok(Server {
            alloc,
            core,
            printer: Printer::new(alloc, form)?,
            journal: Journaling::new(alloc, setup.journal(), setup.fencing())?,
            monitor,
            lines: 0,
            sent: 0,
            unread: 0,
            unjournaled: 0,
            stale: 0,
        })
    }

    /// Prints the title if the output is a recording, and `ready`.
    pub fn open<W: Write>(
        &mut self,
        title: Option<&[u8]>,
        writer: &mut W,
    ) -> Result<(), WriteFailed>
        requires whole { self.old.printer.has_failed ≡ false }
        ensures core { self.new.core ≡ self.old.core }
        ensures journal { self.new.journal ≡ self.old.journal }
        ensures whole { OnOk result (self.new.printer.has_failed ≡ false) }
        ensures failed { OnErr result (self.new.printer.has_failed ≡ true) }
        ensures printed { Prints self.old.printer self.new.printer (W.contents writer.old) (W.contents writer.new)
            (opening (option_map (λ text. text.now) title.entry)) }
    {
        self.printer.open(title, writer);
        if self.printer.has_failed() {
            return Err(WriteFailed);
        }
        Ok(())
    }

    /// Drops a control datagram that doesn't pass the fence. Otherwise appends it to the journal, if there is one and
    /// the datagram isn't oversized, then runs it and sends its answer, if it has one. Also drops the datagram if
    /// memory runs out or the append fails.
    fn take_control<P: Ports, W: Write>(
        &mut self,
        setup: &Setup<'_>,
        ports: &mut P,
        source: Peer,
        bytes: &[u8],
        writer: &mut W,
    )
        requires datagram { IsDatagram source bytes.now }
        ensures value { LeadsByTrace self.old.core.state self.new.core.state
            (outside (ports_seen (P.calls ports.old) (P.journal ports.old)) (W.contents writer.old)
            self.old.printer self.old.journal)
            (outside (ports_seen (P.calls ports.new) (P.journal ports.new)) (W.contents writer.new)
            self.new.printer self.new.journal)
            (Becomes true setup.now 0 (source, bytes.now)) }
        ensures few { self.new.journal.lacking ≤ self.old.journal.lacking }
    {
        let Ok(parsed) = Core::read(self.alloc, bytes) else {
            self.printer
                .note(b"no memory for a control datagram", writer);
            self.unread = self.unread.saturating_add(1);
            return;
        };
        let number = number_in(bytes, &parsed);
        if !self.journal.fencing().passes(bytes, number) {
            self.stale = self.stale.saturating_add(1);
            return;
        }
        let Ok(()) = self.journal.announce(ports, source, bytes) else {
            self.printer
                .note(b"no journal for a control datagram", writer);
            self.unjournaled = self.unjournaled.saturating_add(1);
            return;
        };
        self.journal.pass(number);
        let answer = self.core.run(source, bytes, &parsed);
        self.printer.control(source, bytes, writer);
        match answer {
            Answer::Send => send(ports, 0, source, self.core.answer(), &mut self.sent),
            Answer::Silent => {}
        }
    }

    /// Handles an RTP datagram from a media socket.
    fn take_media<W: Write>(
        &mut self,
        setup: &Setup<'_>,
        socket: u16,
        source: Peer,
        bytes: &[u8],
        writer: &mut W,
    )
        requires sound { IsValidConfig setup.now.config }
        requires first { 1 ≤ socket }
        requires last { socket ≤ setup.now.config.slots }
        requires short { length bytes.now ≤ DATAGRAM_LIMIT }
        ensures value { Leads StandsFor self.old.core.state self.new.core.state (λ w next.
            Step w (event_at setup.now socket source bytes.now) [] next) }
        ensures printed { Prints self.old.printer self.new.printer (W.contents writer.old) (W.contents writer.new)
            (Happened (event_at setup.now socket source bytes.now) ∷ []) }
        ensures journal { self.new.journal ≡ self.old.journal }
    {
        let port = media_port(setup, socket);
        let taken = self.core.media(port, source, bytes);
        self.printer.media(port, source, bytes, writer);
        self.monitor.count_media(socket, bytes, taken);
    }

    /// Returns whether a datagram from this peer is accepted at a socket.
    fn admits(&self, setup: &Setup<'_>, socket: u16, source: Peer) -> bool
        requires sound { IsValidConfig setup.now.config }
        requires last { socket ≤ setup.now.config.slots }
        ensures value { (w : World) → StandsFor self.now.core.state w →
            result ≡ is_admitted setup.now w socket source }
    {
        if socket == 0 {
            return setup.may_command(source.address);
        }
        !setup.symmetric_rtp() || is_remote(self.remote((socket - 1) as u8), source)
    }

    /// Returns the Remote of the termination in a slot, or `None` if there is no Remote or no termination.
    fn remote(&self, slot: u8) -> Option<Chosen>
        ensures value { (w : World) → StandsFor self.now.core.state w →
            result ≡ option_and_then (λ r. r.remote) (holder_of w.gateway.rooms slot) }
    {
        self.core.rooms().held(slot)?.remote
    }

    /// Handles a datagram from a socket, if its sender is admitted.
    fn take<P: Ports, W: Write>(
        &mut self,
        setup: &Setup<'_>,
        ports: &mut P,
        socket: u16,
        datagram: Incoming<'_>,
        writer: &mut W,
    )
        requires sound { IsValidConfig setup.now.config }
        requires last { socket ≤ setup.now.config.slots }
        requires datagram { IsDatagram datagram.source datagram.bytes.now }
        ensures value { LeadsByTrace self.old.core.state self.new.core.state
            (outside (ports_seen (P.calls ports.old) (P.journal ports.old)) (W.contents writer.old)
            self.old.printer self.old.journal)
            (outside (ports_seen (P.calls ports.new) (P.journal ports.new)) (W.contents writer.new)
            self.new.printer self.new.journal)
            (λ w. Becomes (is_admitted setup.now w socket datagram.entry.source) setup.now socket
            (datagram.entry.source, datagram.entry.bytes.now) w) }
        ensures few { self.new.journal.lacking ≤ self.old.journal.lacking }
    {
        let Incoming { source, bytes } = datagram;
        if !self.admits(setup, socket, source) {
            self.monitor.count_stranger(socket);
        } else if socket == 0 {
            self.take_control(setup, ports, source, bytes, writer);
        } else {
            self.take_media(setup, socket, source, bytes, writer);
        }
    }

    /// Receives a datagram from a socket and handles it. Returns whether a datagram was received.
    fn receive<P: Ports, W: Write>(
        &mut self,
        setup: &Setup<'_>,
        ports: &mut P,
        socket: u16,
        buffer: &mut [u8],
        writer: &mut W,
    ) -> bool
        requires sound { IsValidConfig setup.now.config }
        requires last { socket ≤ setup.now.config.slots }
        requires room { length buffer.old ≤ DATAGRAM_LIMIT }
        ensures value { LeadsByTrace self.old.core.state self.new.core.state
            (outside (ports_seen (P.calls ports.old) (P.journal ports.old)) (W.contents writer.old)
            self.old.printer self.old.journal)
            (outside (ports_seen (P.calls ports.new) (P.journal ports.new)) (W.contents writer.new)
            self.new.printer self.new.journal)
            (Received setup.now socket result) }
        ensures few { self.new.journal.lacking ≤ self.old.journal.lacking }
    {
        match ports.receive(usize::from(socket), buffer) {
            Ok(Some((n, source))) => {
                let bytes = &buffer[..n];
                parts_fit(source.address.as_slice(), source.port, bytes);
                self.take(setup, ports, socket, Incoming { source, bytes }, writer);
                true
            }
            Ok(None) => false,
            Err(_) => false,
        }
    }

    /// Handles at most 64 of the datagrams waiting at a socket. Stops after a failed receive.
    fn turn<P: Ports, W: Write>(
        &mut self,
        setup: &Setup<'_>,
        ports: &mut P,
        socket: u16,
        buffer: &mut [u8],
        writer: &mut W,
    )
        requires sound { IsValidConfig setup.now.config }
        requires last { socket ≤ setup.now.config.slots }
        requires room { length buffer.old ≤ DATAGRAM_LIMIT }
        ensures value { LeadsByTrace self.old.core.state self.new.core.state
            (outside (ports_seen (P.calls ports.old) (P.journal ports.old)) (W.contents writer.old)
            self.old.printer self.old.journal)
            (outside (ports_seen (P.calls ports.new) (P.journal ports.new)) (W.contents writer.new)
            self.new.printer self.new.journal)
            (SocketTurn setup.now socket) }
        ensures few { self.new.journal.lacking ≤ self.old.journal.lacking }
    {
        for _ in 0..TURN {
            if !self.receive(setup, ports, socket, buffer, writer) {
                return;
            }
        }
    }

    /// Handles the datagrams waiting at the control port, and then those at each media port in ascending order: at most
    /// 64 at each port.
    fn poll<P: Ports, W: Write>(
        &mut self,
        setup: &Setup<'_>,
        ports: &mut P,
        buffer: &mut [u8],
        writer: &mut W,
    )
        requires sound { IsValidConfig setup.now.config }
        requires room { length buffer.old ≤ DATAGRAM_LIMIT }
        ensures value { LeadsByTrace self.old.core.state self.new.core.state
            (outside (ports_seen (P.calls ports.old) (P.journal ports.old)) (W.contents writer.old)
            self.old.printer self.old.journal)
            (outside (ports_seen (P.calls ports.new) (P.journal ports.new)) (W.contents writer.new)
            self.new.printer self.new.journal)
            (Performs setup.now Command.Poll) }
        ensures few { self.new.journal.lacking ≤ self.old.journal.lacking }
    {
        self.monitor.begin_poll();
        for socket in 0..=setup.config().slots {
            self.turn(setup, ports, socket, buffer, writer);
        }
    }

    /// Advances by 20 ms, and sends the packets. If the tick is late, ports on a network don't send them. Then appends
    /// ticks to the journal and renews it, if that is due.
    fn tick<P: Ports, W: Write>(
        &mut self,
        setup: &Setup<'_>,
        ports: &mut P,
        timing: Timing,
        writer: &mut W,
    )
        requires sound { IsValidConfig setup.now.config }
        requires few { self.old.journal.lacking + 1 < 2 ^ 64 }
        ensures value { LeadsByTrace self.old.core.state self.new.core.state
            (outside (ports_seen (P.calls ports.old) (P.journal ports.old)) (W.contents writer.old)
            self.old.printer self.old.journal)
            (outside (ports_seen (P.calls ports.new) (P.journal ports.new)) (W.contents writer.new)
            self.new.printer self.new.journal)
            (Performs setup.now (Command.Tick timing)) }
        ensures few { self.new.journal.lacking ≤ self.old.journal.lacking + 1 }
    {
        ports.begin_tick(timing);
        self.monitor.begin_tick(&self.core);
        self.core.tick();
        self.printer.tick(writer);
        send_packets(ports, setup, self.core.outbox(), &mut self.sent);
        self.journal.end_tick(ports);
        self.journal
            .renew_if_due(self.alloc, setup, ports, &self.core);
        self.report(setup, ports, timing);
    }

    /// Reports a tick to the monitor.
    fn report<P: Ports>(&mut self, setup: &Setup<'_>, ports: &P, timing: Timing)
        ensures core { self.new.core ≡ self.old.core }
        ensures printer { self.new.printer ≡ self.old.printer }
        ensures journal { self.new.journal ≡ self.old.journal }
    {
        let counts = self.counts(ports);
        let report = TickReport {
            config: setup.config(),
            core: &self.core,
            counts,
            unread: self.unread,
            stale: self.stale,
            fence: self.journal.fencing().fence,
            failures: ports.failure_causes(),
            journal: self.journal.report(self.unjournaled),
            timing,
        };
        self.monitor.end_tick(&report);
    }

    /// Returns the counts, including the failures of the ports.
    pub fn counts<P: Ports>(&self, ports: &P) -> Counts
        ensures events { (w : World) → StandsFor self.now.core.state w →
            record result { lines = 0; sent = 0; failed = 0 } ≡ counts_of w.tally }
    {
        Counts {
            lines: self.lines,
            sent: self.sent,
            failed: self.unread.saturating_add(ports.failures()),
            ..self.core.counts()
        }
    }

    /// Executes a command.
    fn execute<P: Ports, W: Write>(
        &mut self,
        setup: &Setup<'_>,
        ports: &mut P,
        buffer: &mut [u8],
        command: Command,
        writer: &mut W,
    )
        requires sound { IsValidConfig setup.now.config }
        requires room { length buffer.old ≤ DATAGRAM_LIMIT }
        requires few { self.old.journal.lacking + 1 < 2 ^ 64 }
        ensures value { LeadsByTrace self.old.core.state self.new.core.state
            (outside (ports_seen (P.calls ports.old) (P.journal ports.old)) (W.contents writer.old)
            self.old.printer self.old.journal)
            (outside (ports_seen (P.calls ports.new) (P.journal ports.new)) (W.contents writer.new)
            self.new.printer self.new.journal)
            (Performs setup.now command) }
        ensures few { self.new.journal.lacking ≤ self.old.journal.lacking + 1 }
        ensures poll { command ≡ Command.Poll → self.new.journal.lacking ≤ self.old.journal.lacking }
    {
        match command {
            Command::Poll => self.poll(setup, ports, buffer, writer),
            Command::Tick(timing) => self.tick(setup, ports, timing, writer),
            Command::Stats => {
                let text = counts_text(
                    &self.counts(ports),
                    self.journal.fencing().fence,
                    self.stale,
                );
                self.printer.print(text.as_slice(), writer);
            }
            Command::Quit => {}
            Command::Unknown => self.printer.print(b"unknown command", writer),
        }
    }

    /// Executes a command, and returns whether it was `quit`. The command is executed in full even if printing fails.
    pub fn take_command<P: Ports, W: Write>(
        &mut self,
        setup: &Setup<'_>,
        ports: &mut P,
        buffer: &mut [u8],
        command: Command,
        writer: &mut W,
    ) -> Result<bool, WriteFailed>
        requires sound { IsValidConfig setup.now.config }
        requires room { length buffer.old ≤ DATAGRAM_LIMIT }
        requires whole { self.old.printer.has_failed ≡ false }
        requires few { self.old.journal.lacking + 1 < 2 ^ 64 }
        ensures quit { IfOk result (λ quit. quit ≡ is_quit command) }
        ensures whole { OnOk result (self.new.printer.has_failed ≡ false) }
        ensures failed { IfErr result (λ failed. self.new.printer.has_failed ≡ true) }
        ensures value { LeadsByTrace self.old.core.state self.new.core.state
            (outside (ports_seen (P.calls ports.old) (P.journal ports.old)) (W.contents writer.old)
            self.old.printer self.old.journal)
            (outside (ports_seen (P.calls ports.new) (P.journal ports.new)) (W.contents writer.new)
            self.new.printer self.new.journal)
            (Performs setup.now command) }
        ensures few { self.new.journal.lacking ≤ self.old.journal.lacking + 1 }
        ensures poll { command ≡ Command.Poll → self.new.journal.lacking ≤ self.old.journal.lacking }
    {
        self.lines = self.lines.saturating_add(1);
        self.execute(setup, ports, buffer, command, writer);
        if self.printer.has_failed() {
            return Err(WriteFailed);
        }
        Ok(command == Command::Quit)
    }
}
