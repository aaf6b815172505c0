use mg_program::SOCKETS;
use mg_service::MAX_BIND_ADDRESSES;
use mio::net::UdpSocket;
use mio::{Events, Interest, Poll, Token};
use std::alloc::AllocError;
use std::io::{self, ErrorKind};

/// The maximum number of sockets that a poll can report.
const MAX_REPORTED: usize = SOCKETS + MAX_BIND_ADDRESSES;

/// The system's reports about sockets.
#[derive(Drop)]
pub struct Reports {
    pub poll: Poll,
    pub events: Events,
}

impl Reports {
    /// Creates reports about no sockets.
    pub fn new(system: &HostRuntime) -> io::Result<Self> {
        Ok(Reports {
            events: events(system)?,
            poll: Poll::new(system)?,
        })
    }
}

/// Creates a buffer for the system's reports.
pub fn events(system: &HostRuntime) -> io::Result<Events> {
    match Events::with_capacity(system.alloc(), MAX_REPORTED) {
        Ok(events) => Ok(events),
        Err(AllocError) => Err(io::Error::from(ErrorKind::OutOfMemory)),
    }
}

/// Asks the system to report when a datagram arrives at a socket.
pub fn watch_socket(poll: &Poll, socket: &mut UdpSocket, number: usize) -> io::Result<()> {
    poll.registry()
        .register(socket, Token(number), Interest::READABLE)
}
