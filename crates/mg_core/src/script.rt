ghost use Rattle.std.specs.Prelude.{◌≡◌, false};
ghost use Rattle.mg_core.specs.aids.Reads.{Reads};
ghost use Rattle.mg_core.specs.Script.{is_plain, escaped_byte, unescaped, ok_of, spelling_of, bytes_of, datagram, rtp_of, control_of, datagram_of, is_comment, event_of};
ghost use Rattle.hex.specs.Hex.{decode_of};

use crate::event::Event;
use crate::peer::peer_of;
use hex::FromHexError;
use mg_text::TreeList;
use mg_words::{cut, port_of};
use std::alloc::{AllocError, AllocFailed, Global};

/// The maximum length of a script line, in bytes.
pub const LINE_LIMIT: usize = 140000;

/// The maximum length of a datagram, in bytes: the limit of UDP itself.
pub const DATAGRAM_LIMIT: usize = 65535;

/// The reason why a line was not parsed.
#[derive(Clone, Copy, Debug, PartialEq, Eq)]
pub enum ParseFault {
    /// The line is not a script line.
    Bad,
    NoMemory,
}

impl From<AllocError> for ParseFault {
    ghost use Rattle.std.specs.Prelude.{◌≡◌};
    ghost use Rattle.mg_core.specs.declared.script.ParseFault.TheVariants as faults;

    ghost from_gives = { λ _ e. e ≡ faults.NoMemory };

    fn from(_value: AllocError) -> Self {
        ParseFault::NoMemory
    }
}

impl<T: Drop> From<AllocFailed<T>> for ParseFault {
    ghost use Rattle.std.specs.Prelude.{◌≡◌};
    ghost use Rattle.mg_core.specs.declared.script.ParseFault.TheVariants as faults;

    ghost from_gives = { λ _ e. e ≡ faults.NoMemory };

    fn from(_value: AllocFailed<T>) -> Self {
        ParseFault::NoMemory
    }
}

/// Returns whether a byte can appear in text: visible ASCII or a space.
fn is_plain(b: u8) -> bool
    ensures value { result ≡ is_plain b }
{
    matches!(b, 0x20..=0x7E)
}

/// Returns the byte that a backslash and this byte denote, or `None` if they are not an escape.
fn escaped_byte(b: u8) -> Option<u8>
    ensures value { result ≡ escaped_byte b }
{
    match b {
        b'n' => Some(b'\n'),
        b'r' => Some(b'\r'),
        b'\\' => Some(b'\\'),
        _ => None,
    }
}

/// Parses text with escapes.
#[tactic(auto, using(crate::proofs::EscapeSteps::steps))]
fn unescape(alloc: Global, text: &[u8]) -> Result<Vec<u8>, ParseFault>
    ensures { Reads (λ bytes. bytes.items) result (unescaped false text.now) }
{
    let mut bytes = Vec::new(alloc);
    let mut is_escaped = false;
    for b in text {
        if is_escaped {
            let Some(byte) = escaped_byte(*b) else {
                return Err(ParseFault::Bad);
            };
            bytes.push(byte)?;
            is_escaped = false;
        } else if *b == b'\\' {
            is_escaped = true;
        } else if is_plain(*b) {
            bytes.push(*b)?;
        } else {
            return Err(ParseFault::Bad);
        }
    }
    if is_escaped {
        return Err(ParseFault::Bad);
    }
    Ok(bytes)
}

/// Parses hexadecimal digits.
fn unhex(alloc: Global, digits: &[u8]) -> Result<Vec<u8>, ParseFault>
    ensures { Reads (λ bytes. bytes.items) result (ok_of (decode_of digits.now)) }
{
    match hex::decode(alloc, digits) {
        Ok(bytes) => Ok(bytes),
        Err(FromHexError::OutOfMemory) => Err(ParseFault::NoMemory),
        Err(_) => Err(ParseFault::Bad),
    }
}

/// The encoding of a control datagram in a script line. The first word of the line determines it.
#[derive(Clone, Copy, Debug, PartialEq, Eq)]
enum Spelling {
    /// Text with escapes.
    Text,
    /// Hexadecimal digits.
    Digits,
}

/// Returns the encoding that the first word of a line selects, or `None` if it selects none.
#[tactic(auto, unfolding(crate::specs::Script::spelling_of))]
fn spelling_of(key: &[u8]) -> Option<Spelling>
    ensures value { result ≡ spelling_of key.now }
{
    if key == b"say".as_slice() {
        Some(Spelling::Text)
    } else if key == b"control".as_slice() {
        Some(Spelling::Digits)
    } else {
        None
    }
}

/// Parses the last part of a line, in the encoding that the first word selects.
fn bytes_of(alloc: Global, key: &[u8], spelled: &[u8]) -> Result<Vec<u8>, ParseFault>
    ensures { Reads (λ bytes. bytes.items) result (bytes_of key.now spelled.now) }
{
    match spelling_of(key) {
        Some(Spelling::Text) => unescape(alloc, spelled),
        Some(Spelling::Digits) => unhex(alloc, spelled),
        None => Err(ParseFault::Bad),
    }
}

/// Parses an RTP datagram: a port, a peer and a string of hexadecimal digits, separated by single spaces.
#[tactic(auto, unfolding(crate::specs::Script::rtp_of))]
fn rtp_of(alloc: Global, parts: &[u8]) -> Result<Option<Event>, ParseFault>
    ensures { Reads (λ event. event) result (rtp_of parts.now) }
{
    let Some((port, rest)) = cut(b' ', parts) else {
        return Err(ParseFault::Bad);
    };
    let Some(port) = port_of(port) else {
        return Err(ParseFault::Bad);
    };
    let Some((peer, digits)) = cut(b' ', rest) else {
        return Err(ParseFault::Bad);
    };
    let Some(source) = peer_of(peer) else {
        return Err(ParseFault::Bad);
    };
    let bytes = unhex(alloc, digits)?;
    if bytes.len() > DATAGRAM_LIMIT {
        return Err(ParseFault::Bad);
    }
    Ok(Some(Event::Media(port, source, TreeList::new(bytes))))
}

/// Parses the rest of a control datagram's line: a peer, one space, and then the bytes.
#[tactic(auto, unfolding(crate::specs::Script::control_of))]
fn control_of(alloc: Global, key: &[u8], rest: &[u8]) -> Result<Option<Event>, ParseFault>
    ensures { Reads (λ event. event) result (control_of key.now rest.now) }
{
    let Some((peer, spelled)) = cut(b' ', rest) else {
        return Err(ParseFault::Bad);
    };
    let Some(source) = peer_of(peer) else {
        return Err(ParseFault::Bad);
    };
    let bytes = bytes_of(alloc, key, spelled)?;
    if bytes.len() > DATAGRAM_LIMIT {
        return Err(ParseFault::Bad);
    }
    Ok(Some(Event::Control(source, TreeList::new(bytes))))
}

/// Parses a datagram: a first word, a space, and the parts that the word requires.
#[tactic(auto, unfolding(crate::specs::Script::datagram_of))]
fn datagram_of(alloc: Global, line: &[u8]) -> Result<Option<Event>, ParseFault>
    ensures { Reads (λ event. event) result (datagram_of line.now) }
{
    let Some((key, rest)) = cut(b' ', line) else {
        return Err(ParseFault::Bad);
    };
    if key == b"rtp".as_slice() {
        return rtp_of(alloc, rest);
    }
    control_of(alloc, key, rest)
}

/// Returns whether a line is empty or a comment, and so has no event.
fn is_comment(line: &[u8]) -> bool
    ensures value { result ≡ is_comment line.now }
{
    match line {
        [] => true,
        [b, ..] => *b == b'#',
    }
}

/// Parses a line without its line feed. Returns `None` if the line has no event.
#[tactic(auto, unfolding(crate::specs::Script::event_of))]
pub fn event_of(alloc: Global, line: &[u8]) -> Result<Option<Event>, ParseFault>
    ensures { Reads (λ event. event) result (event_of line.now) }
{
    if line.len() > LINE_LIMIT {
        return Err(ParseFault::Bad);
    }
    if is_comment(line) {
        return Ok(None);
    }
    match line {
        b"tick" => Ok(Some(Event::Tick)),
        _ => datagram_of(alloc, line),
    }
}
