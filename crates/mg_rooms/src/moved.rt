use crate::member::Member;

/// A termination before and after a move.
#[derive(Clone, Copy, Debug, PartialEq, Eq)]
pub struct Moved {
    /// The termination in the context that it left.
    pub from: Member,
    /// The termination in the context that it entered.
    pub to: Member,
}
