use mg_playout::Placed;
use mg_rtp::RtpFault;

/// What happened to an RTP datagram.
#[derive(Clone, Copy, Debug, PartialEq, Eq)]
pub enum Taken {
    /// The frame was passed to the termination's play list.
    Placed(Placed),
    /// The datagram was dropped.
    Dropped(DropCause),
}

/// Why an RTP datagram was dropped. If several causes apply, the first cause in this list is reported.
#[derive(Clone, Copy, Debug, PartialEq, Eq)]
pub enum DropCause {
    /// No termination has the port.
    NoTermination,
    /// The termination has a Remote, and the datagram is from another address.
    Stray,
    /// The termination has no Local.
    NoLocal,
    /// The datagram is not a valid packet.
    Rtp(RtpFault),
    /// The payload type does not match the Local's law.
    PayloadType,
    /// The payload is not 160 bytes long.
    Length,
}
