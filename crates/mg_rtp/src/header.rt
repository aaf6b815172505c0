/// The size of the fixed header, in bytes.
pub(crate) const HEADER_LEN: usize = 12;

/// The version of RTP that is read and written: 2.
pub(crate) const RTP_VERSION: u8 = 2;

/// The fields of a packet's header.
#[derive(Clone, Copy, Debug, PartialEq, Eq, Hash)]
pub struct Header {
    /// The marker bit. In RFC 3551 it marks the first packet of a talkspurt.
    pub marker: bool,
    /// The payload type, below 128. In RFC 3551, 0 is PCMU and 8 is PCMA.
    pub payload_type: u8,
    /// The sequence number, modulo 65536. It increases by one with each packet of a source.
    pub sequence: u16,
    /// The time of the payload's first sample, in samples, modulo 2^32.
    pub timestamp: u32,
    /// The synchronization source, which identifies the sender.
    pub ssrc: u32,
}
