ghost use Rattle.std.specs.Prelude.{◌≡◌, ◌<◌};
ghost use Rattle.mg_words.specs.Limits.{termination_limit};

use std::marker::Model;

/// The row of a termination. In contracts, it appears as the number of its slot, which is below
/// [`TERMINATION_LIMIT`](crate::TERMINATION_LIMIT).
#[derive(Clone, Copy, Debug, PartialEq, Eq, Hash)]
pub struct Row {
    number: u8,
}

impl Model for Row {
    ghost use Rattle.std.specs.Prelude.{ℕ, ◌<◌};
    ghost use Rattle.mg_words.specs.Limits.{termination_limit};

    ghost Value = { ℕ };

    ghost view = { λ row. row.number };

    ghost invariant = { λ row. row.number < termination_limit };

    ghost inverse = { λ number. record { number = number } };
}

/// The default is the row of the first slot.
impl Default for Row {
    ghost use Rattle.std.specs.Prelude.{◌≡◌};

    ghost is_default = { λ row. row ≡ 0 };

    fn default() -> Self {
        Row { number: 0 }
    }
}

impl Row {
    /// Returns the row with this number.
    pub fn new(number: u8) -> Self
        requires { number < termination_limit }
        ensures { result ≡ number }
    {
        Row { number }
    }

    /// Returns the number of the row.
    pub fn number(self) -> usize
        ensures value { result ≡ self }
        ensures within { result < termination_limit }
    {
        usize::from(self.number)
    }
}
