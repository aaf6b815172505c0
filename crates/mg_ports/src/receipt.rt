use crate::payload::Payload;
use mg_words::Peer;

/// The result of a receive.
#[derive(Drop)]
pub enum Receipt {
    /// A datagram, with its source.
    Delivered(Peer, Payload),
    /// No datagram was waiting.
    Nothing,
    Failed,
}
