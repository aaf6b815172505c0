use crate::fault::RestoreFault;
use crate::parts_reading::{escaped_byte, numbered_32};
use arrayvec::ArrayVec;
use mg_words::{SENDER_LIMIT, cut};
use std::alloc::Global;

/// The line of a kept reply.
#[derive(Drop)]
pub struct ReplyLine {
    /// The number of the line.
    pub at: u64,
    pub sender: ArrayVec<u8, SENDER_LIMIT>,
    pub number: u32,
    pub text: Vec<u8>,
}

/// Parses text with escapes. Returns `Ok(None)` if an escape is bad, and fails only if memory runs out. A backslash at
/// the end is ignored.
fn unescape(alloc: Global, text: &[u8]) -> Result<Option<Vec<u8>>, RestoreFault> {
    let mut bytes = Vec::new(alloc);
    let mut is_escaped = false;
    for b in text {
        if is_escaped {
            let Some(byte) = escaped_byte(*b) else {
                return Ok(None);
            };
            bytes.push(byte)?;
            is_escaped = false;
        } else if *b == b'\\' {
            is_escaped = true;
        } else {
            bytes.push(*b)?;
        }
    }
    Ok(Some(bytes))
}

/// Returns a sender's name, unless it is too long.
fn sender_of(name: &[u8]) -> Option<ArrayVec<u8, SENDER_LIMIT>> {
    let mut sender = ArrayVec::new();
    sender.try_extend_from_slice(name).ok()?;
    Some(sender)
}

/// Parses the number, the sender and the text of a reply's line. The sender and the text have escapes.
fn reply_parts(line: &[u8]) -> Option<(u32, &[u8], &[u8])> {
    let (number, rest) = numbered_32(b"reply ", line)?;
    let (sender, text) = cut(b' ', rest.strip_prefix(b"to ".as_slice())?)?;
    Some((number, sender, text))
}

impl ReplyLine {
    /// Parses a line. Fails if it isn't the line of a reply, or if memory runs out.
    pub fn read(alloc: Global, line: &[u8], at: u64) -> Result<Self, RestoreFault> {
        let Some((number, sender, text)) = reply_parts(line) else {
            return Err(RestoreFault::BadLine(at));
        };
        let Some(name) = unescape(alloc, sender)? else {
            return Err(RestoreFault::BadLine(at));
        };
        let Some(sender) = sender_of(name.as_slice()) else {
            return Err(RestoreFault::BadLine(at));
        };
        let Some(text) = unescape(alloc, text)? else {
            return Err(RestoreFault::BadLine(at));
        };
        Ok(ReplyLine {
            at,
            sender,
            number,
            text,
        })
    }
}
