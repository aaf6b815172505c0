ghost use Rattle.std.specs.Prelude.{◌≡◌, ◌++◌, [], true, List, ℕ};
ghost use Rattle.sha2.specs.Hashers.{Holds256};
ghost use Rattle.mg_chain.specs.Seals.{is_whole, last_part, seal_end};

use crate::part::part_start;
use hex::encode_to_slice;
use sha2::{Digest, Sha256};
use std::marker::Model;

/// The beginning of a seal.
pub const MARK: &[u8] = b"# sha256 ";

/// The beginning of a line that says which text the lines after it follow.
pub const FOLLOWS: &[u8] = b"# follows ";

/// The number of digits in a seal.
const DIGITS: usize = 64;

/// The length of a seal's end: its digits and a line feed.
pub const END: usize = DIGITS + 1;

/// The SHA-256 of the last part of a text that is still being written or read.
///
/// Each line that begins like a seal starts a new part.
#[derive(Drop)]
pub struct Chain {
    hasher: Sha256,
}

impl Model for Chain {
    ghost use Rattle.std.specs.Prelude.{List, ℕ};
    ghost use Rattle.sha2.specs.declared.Sha256.{Sha256};
    ghost use Rattle.sha2.specs.Hashers.{Holds256};

    ghost Value = { Sha256 };

    ghost view = { λ chain. chain.hasher };

    ghost invariant = { λ chain. (part : List ℕ) × Holds256 chain.hasher part };
}

impl Chain {
    /// Starts an empty part.
    pub fn new() -> Self
        ensures value { Holds256 result [] }
    {
        Chain {
            hasher: Sha256::new(),
        }
    }

    /// Appends to the part, whatever the bytes are.
    pub fn extend(&mut self, bytes: &[u8])
        ensures value { (part : List ℕ) → Holds256 self.old part → Holds256 self.new (part ++ bytes.now) }
    {
        self.hasher.update(bytes);
    }

    /// Appends lines to the text, whose last line must be complete.
    pub fn add(&mut self, lines: &[u8])
        ensures value { (text : List ℕ) → is_whole text ≡ true → Holds256 self.old (last_part text) →
            Holds256 self.new (last_part (text ++ lines.now)) }
    {
        match part_start(lines) {
            Some(start) => {
                self.hasher = Sha256::new();
                self.extend(&lines[start..]);
            }
            None => self.extend(lines),
        }
    }

    /// Returns the end of the seal of the part: its SHA-256 in lower-case hexadecimal digits, and a line feed.
    pub fn seal_end(&self) -> [u8; END]
        ensures value { (part : List ℕ) → Holds256 self.now part → result ≡ seal_end part }
        ensures some { (part : List ℕ) × Holds256 self.now part }
    {
        let mut end = [b'\n'; END];
        if let Ok(hasher) = self.hasher.clone() {
            let _ = encode_to_slice(hasher.finalize().as_slice(), &mut end[..DIGITS]);
        }
        end
    }
}
