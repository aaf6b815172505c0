ghost use Rattle.std.specs.Prelude.{◌≡◌, ◌<◌, drop, length};
ghost use Rattle.mg_scan.specs.Tokens.{quoted_at, token_at, octets_at, token_after, names_octets};
ghost use Rattle.mg_scan.specs.aids.Places.{FindsAs};

use crate::bytes::word_len;
use crate::fault::ScanFault;
use crate::found::Found;
use crate::kind::TokenKind;
use crate::octets::content_len;
use memchr::memchr3;
use mg_words::is_word_byte;

/// Returns the quoted text that the bytes start with, or the fault if it is not closed. The first byte must be a
/// quotation mark.
fn quoted_at(bytes: &[u8]) -> Option<Result<Found, ScanFault>>
    requires { 0 < length bytes.now }
    ensures { FindsAs bytes.now (quoted_at (drop 1 bytes.now)) result }
{
    let (_, tail) = bytes.split_at(1);
    match memchr3(b'"', b'\r', b'\n', tail) {
        Some(n) if tail[n] == b'"' => Some(Ok(Found {
            kind: TokenKind::Quoted,
            start: 1,
            end: n + 1,
            next: n + 2,
        })),
        _ => Some(Err(ScanFault::OpenQuote)),
    }
}

/// Returns the token that the bytes start with, or a fault. Returns `None` if there are no bytes.
#[tactic(auto, unfolding(crate::specs::Tokens::token_at))]
fn token_at(bytes: &[u8]) -> Option<Result<Found, ScanFault>>
    ensures { FindsAs bytes.now (token_at bytes.now) result }
{
    match bytes {
        [] => None,
        [b'{', ..] => Some(Ok(Found::mark(TokenKind::Open))),
        [b'}', ..] => Some(Ok(Found::mark(TokenKind::Close))),
        [b',', ..] => Some(Ok(Found::mark(TokenKind::Comma))),
        [b'=', ..] => Some(Ok(Found::mark(TokenKind::Equals))),
        [b'"', ..] => quoted_at(bytes),
        [b, ..] if is_word_byte(*b) => {
            let end = word_len(bytes);
            Some(Ok(Found {
                kind: TokenKind::Word,
                start: 0,
                end,
                next: end,
            }))
        }
        _ => Some(Err(ScanFault::BadByte)),
    }
}

/// Returns the session description that the bytes start with, or the fault in it. The first byte must be a brace.
fn octets_at(bytes: &[u8]) -> Option<Result<Found, ScanFault>>
    requires { 0 < length bytes.now }
    ensures { FindsAs bytes.now (octets_at (drop 1 bytes.now)) result }
{
    let (_, tail) = bytes.split_at(1);
    let Some(n) = content_len(tail) else {
        let fault = if tail.contains(&0) {
            ScanFault::BadByte
        } else {
            ScanFault::OpenOctets
        };
        return Some(Err(fault));
    };
    let (content, _) = tail.split_at(n);
    if content.contains(&0) {
        return Some(Err(ScanFault::BadByte));
    }
    Some(Ok(Found {
        kind: TokenKind::Octets,
        start: 1,
        end: n + 1,
        next: n + 2,
    }))
}

/// Returns the token that the bytes start with, or a fault. Returns `None` if there are no bytes. `named` says whether
/// the previous token announces a session description.
#[tactic(auto, unfolding(crate::specs::Tokens::token_after))]
pub fn token_after(named: bool, bytes: &[u8]) -> Option<Result<Found, ScanFault>>
    ensures { FindsAs bytes.now (token_after named bytes.now) result }
{
    match bytes {
        [] => None,
        [b'{', ..] if named => octets_at(bytes),
        _ => token_at(bytes),
    }
}

/// Returns whether a token announces a session description: `Local` or `Remote`, in long or short form.
#[tactic(auto, unfolding(crate::specs::Tokens::names_octets))]
pub fn names_octets(kind: TokenKind, text: &[u8]) -> bool
    ensures { result ≡ names_octets kind text.now }
{
    match kind {
        TokenKind::Word => {
            text.eq_ignore_ascii_case(b"Local")
                || text.eq_ignore_ascii_case(b"L")
                || text.eq_ignore_ascii_case(b"Remote")
                || text.eq_ignore_ascii_case(b"R")
        }
        _ => false,
    }
}
