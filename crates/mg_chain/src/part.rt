ghost use Rattle.std.specs.Prelude.{◌≡◌, ◌≤◌, ◌++◌, false, length, true, IfSome, List, MatchOption, ℕ};
ghost use Rattle.mg_chain.specs.Seals.{has_mark, is_whole, last_part};
ghost use Rattle.mg_chain.specs.aids.Parts.{IsStart, part_after};

use crate::chain::MARK;
use memchr::memmem::rfind;

/// A line feed and the beginning of a seal.
const NEXT: &[u8] = b"\n# sha256 ";

/// Returns the start of the last line that begins like a seal, not counting the first line, or `None` if there is no
/// such line.
pub fn mark_start(text: &[u8]) -> Option<usize>
    ensures value { MatchOption result (has_mark text.now ≡ false) (λ start. IsStart text.now start) }
{
    if text.len() < NEXT.len() {
        return None;
    }
    match rfind(text, NEXT) {
        Some(i) => Some(i + 1),
        None => None,
    }
}

/// Returns the start of the last line that begins like a seal, or `None` if there is no such line.
pub(crate) fn part_start(lines: &[u8]) -> Option<usize>
    ensures within { IfSome result (λ start. start ≤ length lines.now) }
    ensures value { (text : List ℕ) → is_whole text ≡ true →
        last_part (text ++ lines.now) ≡ part_after result (last_part text) lines.now }
{
    match mark_start(lines) {
        Some(start) => Some(start),
        None if lines.starts_with(MARK) => Some(0),
        None => None,
    }
}
