ghost use Rattle.std.specs.Prelude.{◌≤◌, ℕ, length, IfOk, IfSome};

use mg_core::Peer;
use mg_ports::PortFault;
use mio::net::UdpSocket;
use std::io::{self, ErrorKind};
use std::net::{IpAddr, SocketAddr};

/// Returns the sender of a datagram. Fails if the sender has no IPv4 address.
fn peer_of(address: SocketAddr) -> Result<Peer, PortFault> {
    match address.ip() {
        IpAddr::V4(ip) => Ok(Peer {
            address: ip.octets(),
            port: address.port(),
        }),
        IpAddr::V6(_) => Err(PortFault),
    }
}

/// Returns the datagram that a socket received, or `None` if the receive would block.
fn datagram_of(answer: io::Result<(usize, SocketAddr)>) -> Result<Option<(usize, Peer)>, PortFault>
    ensures within { (limit : ℕ) → IfOk answer (λ received. received.0 ≤ limit)
        → IfOk result (λ received. IfSome received (λ d. d.0 ≤ limit)) }
{
    match answer {
        Ok((n, address)) => Ok(Some((n, peer_of(address)?))),
        Err(error) if error.kind() == ErrorKind::WouldBlock => Ok(None),
        Err(_) => Err(PortFault),
    }
}

/// Receives a datagram if one is waiting.
pub fn receive_from(
    socket: &UdpSocket,
    buffer: &mut [u8],
) -> Result<Option<(usize, Peer)>, PortFault>
    ensures within { IfOk result (λ received. IfSome received (λ d. d.0 ≤ length buffer.new)) }
{
    datagram_of(socket.recv_from(buffer))
}
