use mg_core::Peer;

/// A datagram that was received.
pub(crate) struct Incoming<'a> {
    pub(crate) source: Peer,
    pub(crate) bytes: &'a [u8],
}
