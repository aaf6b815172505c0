ghost use Rattle.std.specs.Prelude.{◌≡◌, List};
ghost use Rattle.std.specs.Iterator.{YieldsFirst, item_count};
ghost use Rattle.mg_topology.specs.Mask.{seats_of};

use crate::mask::{self, Mask};
use std::iter::FusedIterator;
use std::marker::Model;

/// An iterator over the seats of a set in ascending order; see [`mask::seats`].
///
/// In contracts, it appears as the list of remaining seats.
#[derive(Debug, Drop)]
pub struct Seats {
    left: Mask,
}

impl Model for Seats {
    ghost use Rattle.std.specs.Prelude.{ℕ, List};

    ghost Value = { List ℕ };

    ghost use Rattle.mg_topology.specs.Mask.{seats_of};

    ghost view = { λ seats. seats_of seats.left };
}

impl Seats {
    pub(crate) fn new(mask: Mask) -> Self
        ensures { result ≡ seats_of mask }
    {
        Seats { left: mask }
    }
}

impl Iterator for Seats {
    type Item = usize;

    ghost next_gives = { YieldsFirst (λ left. left) };

    ghost remaining = { item_count (λ left. left) };

    fn next(&mut self) -> Option<usize> {
        let seat = mask::first_seat(self.left)?;
        self.left = mask::without_seat(self.left, seat);
        Some(seat)
    }
}

impl FusedIterator for Seats {}
