use crate::parts_reading::{names, numbered_32};
use arrayvec::ArrayVec;
use mg_words::MEMBER_LIMIT;

/// The line of the talkers that a listener may not hear.
#[derive(Drop)]
pub struct ListenerLine {
    /// The number of the line.
    pub at: u64,
    pub listener: u32,
    pub muted: ArrayVec<u32, MEMBER_LIMIT>,
}

impl ListenerLine {
    /// Parses a line. Returns `None` if it isn't the line of a listener.
    pub fn read(line: &[u8], at: u64) -> Option<Self> {
        let (listener, rest) = numbered_32(b"listener RTP/", line)?;
        let (muted, rest) = names(rest.strip_prefix(b"has ".as_slice())?);
        if rest != b"muted".as_slice() {
            return None;
        }
        Some(ListenerLine {
            at,
            listener,
            muted,
        })
    }
}
