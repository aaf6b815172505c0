use crate::header::Header;

/// A packet that was read from a datagram.
#[derive(Clone, Copy, Debug, PartialEq, Eq)]
pub struct Packet<'a> {
    /// The header.
    pub header: Header,
    /// The payload without padding, borrowed from the datagram. It may be empty.
    pub payload: &'a [u8],
}
