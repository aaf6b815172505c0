use mg_engine::Peer;
use mg_text::TreeList;

/// An event of a gateway, as read from a script line.
#[derive(Drop)]
pub enum Event {
    /// A control datagram: its source and its bytes.
    Control(Peer, TreeList<u8>),
    /// An RTP datagram at a media port: the port, the source and the bytes.
    Media(u16, Peer, TreeList<u8>),
    /// A tick of 20 ms.
    Tick,
}
