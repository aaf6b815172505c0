/// The reason why options request no run.
#[derive(Clone, Copy, Debug)]
pub(crate) enum OptionFault {
    /// The error message: a text isn't a valid value of its option, or an option contradicts another one or lacks one
    /// that it needs.
    Invalid(&'static str),
    NoMemory,
}
