/// What the lines with which a gateway starts say.
#[derive(Clone, Copy)]
pub(crate) struct Start {
    /// The number of ticks that the gateway missed.
    pub(crate) missed: u64,
    /// The number to which an operator sets the fence, if it is given.
    pub(crate) fence: Option<u32>,
}
