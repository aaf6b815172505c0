/// What a gateway appends to its journal in one call.
#[derive(Clone, Copy, Debug, PartialEq, Eq)]
pub enum Batch {
    /// The line of a message.
    Message,
    /// The line that stands for this many ticks.
    Ticks(u64),
}
