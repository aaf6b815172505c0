use crate::unsent::Unsent;
use mg_ports::{Call, Payload, Peer};

/// A call on a host, with its arguments and its result.
#[derive(Drop)]
pub enum HostCall {
    /// An attempt to open the file of a journal: the path, and the bytes in the file, or `None` if the attempt failed.
    OpenJournal(Payload, Option<Payload>),
    /// An attempt to open a file to be read: the path, and the text in the file, or `None` if the attempt failed.
    OpenText(Payload, Option<Payload>),
    /// A reading of the system's clock: the milliseconds since 1970 (UTC), or `None` if the clock couldn't be read.
    ReadDate(Option<u64>),
    /// An attempt to bind a socket to an address and a port; the flag is false if the attempt failed.
    Bind([u8; 4], u16, bool),
    /// An attempt to bind a further control socket to an address and a port; the flag is false if the attempt failed.
    BindAlso([u8; 4], u16, bool),
    /// A datagram has arrived at this socket, according to the next poll.
    Reported(usize),
    /// A question to the host at which sockets a datagram had arrived; the flag is false if the question failed.
    Poll(bool),
    /// A call of a session on its ports.
    OnPorts(Call),
    /// A session did not receive from this socket, because no datagram could be waiting there.
    NotReported(usize),
    /// A session did not send this datagram.
    NotSent(usize, Peer, Payload, Unsent),
}
