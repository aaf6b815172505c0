use crate::members::Members;

/// A context and its members.
#[derive(Drop)]
pub struct Context {
    /// The number. No other context of the gateway ever has the same number.
    pub(crate) number: u32,
    /// The room that the context holds as long as it exists. It is below [`CONTEXT_LIMIT`](crate::CONTEXT_LIMIT).
    pub(crate) room: u8,
    /// The members, in order of entry.
    pub(crate) members: Members,
}
