use crate::record::Record;

/// A termination and the room of its context.
#[derive(Clone, Copy, Debug, PartialEq, Eq)]
pub struct Member {
    /// The termination.
    pub record: Record,
    /// The room of its context, below [`CONTEXT_LIMIT`](crate::CONTEXT_LIMIT).
    pub room: u8,
}
