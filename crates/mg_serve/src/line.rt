ghost use Rattle.std.specs.Prelude.{◌≡◌, ◌++◌, ◌∷◌, [], take};

use arrayvec::ArrayVec;
use std::marker::Model;

/// The first 8 bytes of a line of any length. Every command is shorter than 8 bytes, so a longer line is never mistaken
/// for a command.
#[derive(Drop)]
pub struct Line {
    text: ArrayVec<u8, 8>,
}

impl Model for Line {
    ghost use Rattle.std.specs.Prelude.{List, ℕ};

    ghost Value = { List ℕ };

    ghost view = { λ l. l.text.items };
}

impl Line {
    pub fn new() -> Self
        ensures value { result ≡ [] }
    {
        Line {
            text: ArrayVec::new(),
        }
    }

    /// Appends a byte to the line, which keeps only its first 8 bytes.
    pub fn push(&mut self, b: u8)
        ensures value { self.new ≡ take 8 (self.old ++ b ∷ []) }
    {
        if !self.text.is_full() {
            self.text.push(b);
        }
    }

    pub fn clear(&mut self)
        ensures value { self.new ≡ [] }
    {
        self.text.clear();
    }

    pub fn as_slice(&self) -> &[u8]
        ensures value { result.now ≡ self.now }
    {
        self.text.as_slice()
    }
}
