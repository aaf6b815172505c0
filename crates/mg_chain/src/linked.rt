use crate::chain::END;
use crate::seals::Seals;

/// The seals of a text, and the end of the seal that would follow the text. The next text says that it follows this one
/// by a line with the same end.
#[derive(Clone, Copy, Debug, PartialEq, Eq)]
pub struct Linked {
    pub seals: Seals,
    pub end: [u8; END],
}
