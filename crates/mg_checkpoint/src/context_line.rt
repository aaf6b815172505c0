use crate::parts_reading::{closing, names, numbered_32};
use arrayvec::ArrayVec;
use mg_words::MEMBER_LIMIT;

/// The line of a context.
#[derive(Drop)]
pub struct ContextLine {
    /// The number of the line.
    pub at: u64,
    pub number: u32,
    pub room: u8,
    /// The members, in order of entry.
    pub members: ArrayVec<u32, MEMBER_LIMIT>,
}

impl ContextLine {
    /// Parses a line. Returns `None` if it isn't the line of a context.
    pub fn read(line: &[u8], at: u64) -> Option<Self> {
        let (number, rest) = numbered_32(b"context ", line)?;
        let (members, rest) = names(rest.strip_prefix(b"has ".as_slice())?);
        let room = closing(b"in room ", rest)?;
        Some(ContextLine {
            at,
            number,
            room: u8::try_from(room).ok()?,
            members,
        })
    }
}
