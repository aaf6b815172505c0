/// An IPv4 address and a UDP port: the source or destination of a datagram.
#[derive(Clone, Copy, Debug, PartialEq, Eq)]
pub struct Peer {
    pub address: [u8; 4],
    pub port: u16,
}
