/// What a termination has sent, and the numbers for the header of its next packet.
#[derive(Clone, Copy, Debug, PartialEq, Eq)]
pub struct SentMedia {
    /// The timestamp of this tick.
    pub timestamp: u32,
    /// The sequence number of the next packet.
    pub sequence: u16,
    /// Whether the last tick sent a packet.
    pub is_sending: bool,
    /// Packets sent (`rtp/ps`).
    pub sent: u64,
    /// Octets of payload sent (`nt/os`).
    pub octets: u64,
}
