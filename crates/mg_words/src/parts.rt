ghost use Rattle.std.specs.Prelude.{◌≡◌, None, Some, MatchOption};
ghost use Rattle.mg_words.specs.Cut.{cut, after_prefix};

use memchr::memchr;

/// Splits `text` at the first occurrence of a byte. Returns `None` if the byte does not occur.
pub fn cut(byte: u8, text: &[u8]) -> Option<(&[u8], &[u8])>
    ensures value { MatchOption result (cut byte text.now ≡ None)
        (λ parts. cut byte text.now ≡ Some (parts.0.now, parts.1.now)) }
{
    match memchr(byte, text) {
        Some(n) => {
            let (before, tail) = text.split_at(n);
            let (_, after) = tail.split_at(1);
            Some((before, after))
        }
        None => None,
    }
}

/// Returns the rest of `text` after a prefix, ignoring case. Returns `None` if `text` does not start with the prefix.
#[tactic(auto, unfolding(crate::specs::Cut::after_prefix), using(crate::proofs::CutLemmas::too_short))]
pub fn after_prefix<'a>(prefix: &[u8], text: &'a [u8]) -> Option<&'a [u8]>
    ensures value { MatchOption result (after_prefix prefix.now text.now ≡ None)
        (λ rest. after_prefix prefix.now text.now ≡ Some rest.now) }
{
    if text.len() < prefix.len() {
        return None;
    }
    let (front, rest) = text.split_at(prefix.len());
    if front.eq_ignore_ascii_case(prefix) {
        Some(rest)
    } else {
        None
    }
}
