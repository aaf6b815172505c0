/// The number of hints: one for each value of the last eight bits of a number.
const HINTS: usize = 256;

/// For each value of a number's last eight bits, the place in a table where a number with those bits was last stored.
///
/// Numbers that differ by 256 share a hint. So a hint only says where to look first, and the caller compares the number
/// there.
#[derive(Drop)]
pub struct Hints {
    places: [u8; HINTS],
}

impl Hints {
    /// Returns an empty set of hints.
    pub(crate) fn new() -> Hints {
        Hints { places: [0; HINTS] }
    }

    /// Records where a number was stored.
    pub(crate) fn note(&mut self, number: u32, place: u8) {
        self.places[number as usize % HINTS] = place;
    }

    /// Returns the place to look at first for a number.
    pub(crate) fn place(&self, number: u32) -> u8 {
        self.places[number as usize % HINTS]
    }
}
