/// The place where a termination enters a context.
#[derive(Clone, Copy)]
pub struct EntryPlace {
    /// The number of the context.
    pub context: u32,
    /// The seat of the termination in the context.
    pub seat: u8,
    /// The room of the context, if the context is created for the termination.
    pub made: Option<u8>,
}
