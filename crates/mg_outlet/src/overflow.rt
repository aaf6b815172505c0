/// The text that an outlet drops if a write doesn't fit in its queue.
#[derive(Clone, Copy, Debug, PartialEq, Eq)]
pub enum Overflow {
    /// Drops the text of that write and all later text. The reader gets a prefix of everything that was written.
    End,
    /// Drops only the text of that write. The reader may miss whole writes, but never part of a write.
    Skip,
}
