ghost use Rattle.std.specs.Prelude.{◌≡◌, slice_index_or};
ghost use Rattle.std.specs.Char.{is_ascii_alphabetic};
ghost use Rattle.mg_fence.specs.Number.{number_in};

use mg_core::Parsed;
use mg_words::{cut, number_of};

/// Returns whether the first byte is an ASCII letter.
fn begins_with_letter(text: &[u8]) -> bool
    ensures value { result ≡ is_ascii_alphabetic (slice_index_or text.now 0 0) }
{
    match text {
        [] => false,
        [b, ..] => b.is_ascii_alphabetic(),
    }
}

/// Returns the number at the start of the sender's name in a control datagram: 1 to 10 digits, at most 4,294,967,295.
///
/// Only a domain name can have a number, and only if a dot and a letter follow the digits. A datagram that is rejected
/// as a whole has no number.
pub fn number_in(bytes: &[u8], parsed: &Parsed) -> Option<u32>
    ensures value { result ≡ number_in bytes.now parsed.now }
{
    let Parsed::Message(message) = parsed else {
        return None;
    };
    let (front, rest) = cut(b'.', message.sender.text(bytes))?;
    match front {
        [b'<', digits @ ..] if begins_with_letter(rest) => number_of(digits),
        _ => None,
    }
}
