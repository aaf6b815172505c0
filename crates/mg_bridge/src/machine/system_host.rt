ghost use Rattle.std.specs.Prelude.{◌≤◌, length, IfOk, IfSome};

use crate::machine::control_watch::ControlWatch;
use crate::machine::disk_file::DiskFile;
use crate::machine::receiving::receive_from;
use crate::machine::reports::{Reports, events, watch_socket};
use arrayvec::ArrayVec;
use mg_clock::SystemWatch;
use mg_core::Peer;
use mg_dates::Date;
use mg_host::{Clocks, Dates, Host, Journals, Sockets, Tells, Texts, Unsent};
use mg_ports::{AppendFault, Durability, PortFault, Timing};
use mg_program::SOCKETS;
use mg_service::MAX_BIND_ADDRESSES;
use mio::Poll;
use mio::net::UdpSocket;
use std::fs::{File, OpenOptions};
use std::io::{self, ErrorKind};
use std::net::{IpAddr, SocketAddr};
use std::time::{Clock, Duration};

/// The machine, as the operating system presents it. The host logs no calls.
#[derive(Drop)]
pub struct SystemHost<'a, C: Clock> {
    system: &'a HostRuntime,
    clock: &'a C,
    /// The control sockets. The first one received the last datagram. Until a datagram is received, it is the socket
    /// that was bound first.
    controls: ArrayVec<Option<UdpSocket>, MAX_BIND_ADDRESSES>,
    media: ArrayVec<Option<UdpSocket>, SOCKETS>,
    /// The system's reports, or `None` until the first socket is bound.
    reports: Option<Reports>,
}

/// Adds a socket, if there is room for it.
fn add<const N: usize>(
    sockets: &mut ArrayVec<Option<UdpSocket>, N>,
    socket: UdpSocket,
) -> io::Result<()> {
    match sockets.try_push(Some(socket)) {
        Ok(()) => Ok(()),
        Err(_) => Err(io::Error::from(ErrorKind::OutOfMemory)),
    }
}

impl<'a, C: Clock> SystemHost<'a, C> {
    /// Creates a host without sockets. The clock is for [`Clocks::watch`].
    pub fn new(system: &'a HostRuntime, clock: &'a C) -> Self {
        SystemHost {
            system,
            clock,
            controls: ArrayVec::new(),
            media: ArrayVec::new(),
            reports: None,
        }
    }

    /// Binds a socket, and asks the system to report when a datagram arrives there.
    fn open(&mut self, address: [u8; 4], port: u16, number: usize) -> io::Result<UdpSocket> {
        let address = SocketAddr::new(IpAddr::from(address), port);
        let mut socket = UdpSocket::bind(self.system, address)?;
        if self.reports.is_none() {
            self.reports = Some(Reports::new(self.system)?);
        }
        if let Some(reports) = &self.reports {
            watch_socket(&reports.poll, &mut socket, number)?;
        }
        Ok(socket)
    }

    /// Receives a datagram from the socket with this number if one is waiting. For 0, only the first control socket is
    /// tried.
    fn receive_at(
        &self,
        number: usize,
        buffer: &mut [u8],
    ) -> Result<Option<(usize, Peer)>, PortFault>
        ensures within { IfOk result (λ received. IfSome received (λ d. d.0 ≤ length buffer.new)) }
    {
        match self.socket(number) {
            Some(socket) => receive_from(socket, buffer),
            None => Err(PortFault),
        }
    }

    /// Receives a datagram if one is waiting at a control socket. Returns `None` only if none is waiting at any of them.
    ///
    /// The last one to be tried is the socket that received the last datagram, so a flood there delays no other socket.
    fn receive_control(&mut self, buffer: &mut [u8]) -> Result<Option<(usize, Peer)>, PortFault>
        ensures within { IfOk result (λ received. IfSome received (λ d. d.0 ≤ length buffer.new)) }
    {
        let mut has_failed = self.controls.is_empty();
        for _ in 0..self.controls.len() {
            if self.controls.len() > 1 {
                self.controls.rotate_left(1);
            }
            match self.receive_at(0, buffer) {
                Ok(Some(datagram)) => return Ok(Some(datagram)),
                Ok(None) => {}
                Err(PortFault) => has_failed = true,
            }
        }
        if has_failed { Err(PortFault) } else { Ok(None) }
    }

    /// Returns the socket with this number, or the first control socket for 0.
    fn socket(&self, number: usize) -> Option<&UdpSocket> {
        let socket = if number == 0 {
            self.controls.first()
        } else {
            self.media.get(number - 1)
        };
        match socket {
            Some(Some(socket)) => Some(socket),
            _ => None,
        }
    }
}

impl<'a, C: Clock> Tells for SystemHost<'a, C> {
    fn log_append(&mut self, _: &[u8], _: Durability, _: Result<(), AppendFault>) {}

    fn log_renewal(&mut self, _: &[u8], _: Durability, _: Result<(), AppendFault>) {}
}

impl<'a, C: Clock> Journals for SystemHost<'a, C> {
    type File = DiskFile<'a>;

    fn open_journal(&mut self, path: &str) -> io::Result<DiskFile<'a>> {
        DiskFile::open(self.system, path)
    }
}

impl<'a, C: Clock> Texts for SystemHost<'a, C> {
    type Text = File;

    fn open_text(&mut self, path: &str) -> io::Result<File> {
        OpenOptions::new().read(true).open(self.system, path)
    }
}

impl<'a, C: Clock> Sockets for SystemHost<'a, C> {
    fn bind(&mut self, address: [u8; 4], port: u16) -> io::Result<()> {
        if self.controls.is_empty() {
            return self.bind_also(address, port);
        }
        let number = self.media.len() + 1;
        let socket = self.open(address, port, number)?;
        add(&mut self.media, socket)
    }

    fn bind_also(&mut self, address: [u8; 4], port: u16) -> io::Result<()> {
        let socket = self.open(address, port, 0)?;
        add(&mut self.controls, socket)
    }

    fn poll(&mut self, marks: &mut [bool]) -> io::Result<()> {
        let Some(reports) = &mut self.reports else {
            return Ok(());
        };
        reports
            .poll
            .poll(&mut reports.events, Some(Duration::ZERO))?;
        for event in reports.events.iter() {
            if let Some(mark) = marks.get_mut(event.token().0) {
                *mark = true;
            }
        }
        Ok(())
    }

    fn receive(
        &mut self,
        socket: usize,
        buffer: &mut [u8],
    ) -> Result<Option<(usize, Peer)>, PortFault> {
        if socket == 0 {
            self.receive_control(buffer)
        } else {
            self.receive_at(socket, buffer)
        }
    }

    /// Fails if only part of the datagram is sent.
    ///
    /// A session answers a message before it receives the next one. So the answer leaves from the control socket at which
    /// the message arrived.
    fn send(&mut self, socket: usize, to: Peer, bytes: &[u8]) -> Result<(), PortFault> {
        let Some(socket) = self.socket(socket) else {
            return Err(PortFault);
        };
        let to = SocketAddr::new(IpAddr::from(to.address), to.port);
        match socket.send_to(bytes, to) {
            Ok(n) if n == bytes.len() => Ok(()),
            _ => Err(PortFault),
        }
    }

    fn log_unreported(&mut self, _socket: usize) {}

    fn log_unsent(&mut self, _socket: usize, _to: Peer, _bytes: &[u8], _cause: Unsent) {}

    fn log_tick(&mut self, _timing: Timing) {}
}

impl<'a, C: Clock> Clocks for SystemHost<'a, C> {
    type Watch = ControlWatch<'a, C>;

    fn watch(&mut self) -> io::Result<ControlWatch<'a, C>> {
        let events = events(self.system)?;
        let poll = Poll::new(self.system)?;
        for control in self.controls.iter_mut() {
            if let Some(control) = control {
                watch_socket(&poll, control, 0)?;
            }
        }
        Ok(ControlWatch::new(SystemWatch::new(self.clock), poll, events))
    }

    fn stop(&mut self, _watch: ControlWatch<'a, C>) {}
}

impl<'a, C: Clock> Dates for SystemHost<'a, C> {
    fn millis(&mut self) -> Option<u64> {
        match Date::now(self.clock) {
            Ok(date) => Some(date.millis),
            Err(_) => None,
        }
    }
}

impl<'a, C: Clock> Host for SystemHost<'a, C> {}
