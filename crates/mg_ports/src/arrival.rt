use crate::payload::Payload;
use mg_words::Peer;

/// A datagram that is waiting at a socket.
#[derive(Drop)]
pub struct Arrival {
    pub socket: usize,
    pub source: Peer,
    pub payload: Payload,
}
