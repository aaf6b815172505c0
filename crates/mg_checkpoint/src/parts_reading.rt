//! The parts of a checkpoint's lines, from the front of a text. What is read is later compared with what is written, so
//! the contracts say nothing.

use arrayvec::ArrayVec;
use mg_core::count_of;
use mg_g711::Law;
use mg_sdp::Chosen;
use mg_words::{MEMBER_LIMIT, Mode, address_of, cut};

/// Parses a label, a number and a space. Returns the number and the rest of the text.
pub fn numbered<'a>(label: &[u8], text: &'a [u8]) -> Option<(u64, &'a [u8])> {
    let rest = text.strip_prefix(label)?;
    let (digits, rest) = cut(b' ', rest)?;
    Some((count_of(digits)?, rest))
}

/// Parses a label and a number, which are the whole text.
pub fn closing(label: &[u8], text: &[u8]) -> Option<u64> {
    count_of(text.strip_prefix(label)?)
}

/// Parses a label, a number of 32 bits and a space.
pub fn numbered_32<'a>(label: &[u8], text: &'a [u8]) -> Option<(u32, &'a [u8])> {
    let (n, rest) = numbered(label, text)?;
    Some((u32::try_from(n).ok()?, rest))
}

/// Parses a label, a number of 16 bits and a space.
pub fn numbered_16<'a>(label: &[u8], text: &'a [u8]) -> Option<(u16, &'a [u8])> {
    let (n, rest) = numbered(label, text)?;
    Some((u16::try_from(n).ok()?, rest))
}

/// Parses a label, a number of 8 bits and a space.
pub fn numbered_8<'a>(label: &[u8], text: &'a [u8]) -> Option<(u8, &'a [u8])> {
    let (n, rest) = numbered(label, text)?;
    Some((u8::try_from(n).ok()?, rest))
}

/// Parses the names of terminations, up to the first text that isn't such a name. Parses at most as many names as a
/// context can have members.
pub fn names(text: &[u8]) -> (ArrayVec<u32, MEMBER_LIMIT>, &[u8]) {
    let mut numbers = ArrayVec::new();
    let mut rest = text;
    for _ in 0..MEMBER_LIMIT {
        let Some((n, after)) = numbered_32(b"RTP/", rest) else {
            return (numbers, rest);
        };
        let _ = numbers.try_push(n);
        rest = after;
    }
    (numbers, rest)
}

/// Parses a law and a space.
fn law(text: &[u8]) -> Option<(Law, &[u8])> {
    let (word, rest) = cut(b' ', text)?;
    match word {
        b"PCMU" => Some((Law::Mu, rest)),
        b"PCMA" => Some((Law::A, rest)),
        _ => None,
    }
}

/// Parses a label and a Local or a Remote, or the word that says that there is none.
pub fn media<'a>(label: &[u8], text: &'a [u8]) -> Option<(Option<Chosen>, &'a [u8])> {
    let rest = text.strip_prefix(label)?;
    if let Some(rest) = rest.strip_prefix(b"none ".as_slice()) {
        return Some((None, rest));
    }
    let rest = rest.strip_prefix(b"at ".as_slice())?;
    let (address, rest) = cut(b':', rest)?;
    let address = address_of(address)?;
    let (port, rest) = numbered_16(b"", rest)?;
    let (law, rest) = law(rest)?;
    Some((Some(Chosen { address, port, law }), rest))
}

/// Parses a label, a mode and a space.
pub fn mode<'a>(label: &[u8], text: &'a [u8]) -> Option<(Mode, &'a [u8])> {
    let rest = text.strip_prefix(label)?;
    let (word, rest) = cut(b' ', rest)?;
    let mode = match word {
        b"Inactive" => Mode::Inactive,
        b"SendOnly" => Mode::SendOnly,
        b"ReceiveOnly" => Mode::ReceiveOnly,
        b"SendReceive" => Mode::SendReceive,
        b"Loopback" => Mode::Loopback,
        _ => return None,
    };
    Some((mode, rest))
}

/// Returns the byte that a backslash and this byte denote, or `None` if they are not an escape.
pub fn escaped_byte(b: u8) -> Option<u8> {
    match b {
        b'n' => Some(b'\n'),
        b'r' => Some(b'\r'),
        b's' => Some(b' '),
        b'\\' => Some(b'\\'),
        _ => None,
    }
}
