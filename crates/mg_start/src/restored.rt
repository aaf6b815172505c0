use mg_core::Core;

/// A gateway that was restored from the checkpoint at the front of a journal.
#[derive(Drop)]
pub(crate) struct Restored {
    pub core: Core,
    /// The number of lines of the title and the checkpoint.
    pub lines: u64,
}
