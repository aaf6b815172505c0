ghost use Rattle.std.specs.Prelude.{◌≡◌, ◌<◌};
ghost use Rattle.mg_words.specs.Limits.{context_limit};

use std::marker::Model;

/// The room of a context. In contracts, it appears as its number, which is below
/// [`CONTEXT_LIMIT`](crate::CONTEXT_LIMIT).
#[derive(Clone, Copy, Debug, PartialEq, Eq, Hash)]
pub struct Room {
    number: u8,
}

impl Model for Room {
    ghost use Rattle.std.specs.Prelude.{ℕ, ◌<◌};
    ghost use Rattle.mg_words.specs.Limits.{context_limit};

    ghost Value = { ℕ };

    ghost view = { λ room. room.number };

    ghost invariant = { λ room. room.number < context_limit };

    ghost inverse = { λ number. record { number = number } };
}

impl Room {
    /// Returns the room with this number.
    pub fn new(number: u8) -> Self
        requires { number < context_limit }
        ensures { result ≡ number }
    {
        Room { number }
    }

    /// Returns the number of the room.
    pub fn number(self) -> usize
        ensures value { result ≡ self }
        ensures within { result < context_limit }
    {
        usize::from(self.number)
    }
}
