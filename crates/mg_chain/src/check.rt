ghost use Rattle.std.specs.Prelude.{◌≡◌, ◌<◌, ◌≤◌, ◌++◌, ◌∷◌, [], List, ℕ, None, IsTrue, bytes_eq, drop, true};
ghost use Rattle.sha2.specs.Hashers.{Holds256};
ghost use Rattle.mg_chain.specs.Seals.{after_line, is_seal, is_whole, followed_in, judged, last_part, no_seals, seal_end};

use crate::chain::{Chain, END, FOLLOWS, MARK};
use crate::seals::Seals;

/// Returns whether a line is a seal, valid or not.
fn is_seal(line: &[u8]) -> bool
    ensures value { result ≡ is_seal line.now }
{
    line.starts_with(MARK) && line.ends_with(b"\n")
}

/// Returns whether a line, which must be a seal, has this end.
fn has_end(line: &[u8], end: &[u8; END]) -> bool
    requires seal { IsTrue (is_seal line.now) }
    ensures value { result ≡ bytes_eq (drop 9 line.now) end.now }
{
    match line.strip_prefix(MARK) {
        Some(rest) => rest == end.as_slice(),
        None => false,
    }
}

/// Returns the end of a line that says which text the lines after it follow, or `None` for any other line.
fn followed_in(line: &[u8]) -> Option<[u8; END]>
    ensures value { result ≡ followed_in line.now }
{
    let rest = line.strip_prefix(FOLLOWS)?;
    match <[u8; END]>::try_from(rest) {
        Ok(end) => Some(end),
        Err(_) => None,
    }
}

/// Checks the seals in a text, line by line.
#[derive(Drop)]
pub struct Check {
    chain: Chain,
    seals: Seals,
}

impl Check {
    /// Creates a check that has not read any line yet.
    pub fn new() -> Self
        ensures text { Holds256 result.chain [] }
        ensures seals { result.seals ≡ no_seals }
    {
        Check {
            chain: Chain::new(),
            seals: Seals {
                count: 0,
                right: None,
                wrong: None,
                lines: 0,
                follows: None,
            },
        }
    }

    /// Returns the counts of seals and lines so far.
    pub fn seals(&self) -> Seals
        ensures value { result ≡ self.now.seals }
    {
        self.seals
    }

    /// Returns the end of the seal that would follow the text.
    pub fn end(&self) -> [u8; END]
        ensures value { (part : List ℕ) → Holds256 self.now.chain part → result ≡ seal_end part }
    {
        self.chain.seal_end()
    }

    /// Counts a seal, valid or not.
    fn count(&mut self, is_right: bool, number: u64)
        requires few { self.old.seals.count < number }
        ensures chain { self.new.chain ≡ self.old.chain }
        ensures few { self.new.seals.count ≤ number }
        ensures value { self.new.seals ≡ judged is_right number self.old.seals self.old.seals.wrong }
    {
        if self.seals.wrong.is_some() {
            return;
        }
        if is_right {
            self.seals.count += 1;
            self.seals.right = Some(number);
        } else {
            self.seals.wrong = Some(number);
        }
    }

    /// Checks a line, which ends in its line feed or at the end of the text.
    pub fn take_line(&mut self, number: u64, line: &[u8])
        requires few { self.old.seals.count < number }
        ensures few { self.new.seals.count ≤ number }
        ensures value { (before : List ℕ) → is_whole before ≡ true → Holds256 self.old.chain (last_part before) →
            Holds256 self.new.chain (last_part (before ++ line.now))
            × (self.new.seals ≡ after_line self.old.seals number before line.now) }
    {
        if is_seal(line) {
            let is_right = has_end(line, &self.chain.seal_end());
            self.count(is_right, number);
        }
        self.seals.lines = number;
        self.seals.follows = self.seals.follows.or(followed_in(line));
        self.chain.add(line);
    }
}
