ghost use Rattle.std.specs.Prelude.{◌≡◌, ◌<◌, false, length, IfSome};
ghost use Rattle.mg_scan.specs.Tokens.{content_len};

use memchr::memchr;

/// The byte that escapes a closing brace.
const ESCAPE: u8 = b'\\';

/// Returns how many bytes precede the brace that closes a session description, or `None` if no brace closes it.
///
/// The closing brace is the first `}` that has no backslash in front of it.
pub fn content_len(bytes: &[u8]) -> Option<usize>
    ensures in_range { IfSome result (λ n. n < length bytes.now) }
    ensures value { result ≡ content_len false bytes.now }
{
    let mut from = 0;
    loop {
        let (_, rest) = bytes.split_at(from);
        let Some(n) = memchr(b'}', rest) else {
            return None;
        };
        if n == 0 || rest[n - 1] != ESCAPE {
            return Some(from + n);
        }
        from += n + 1;
    }
}
