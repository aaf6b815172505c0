use crate::question::Question;

/// A question about when a talker was audible.
#[derive(Drop)]
pub(crate) struct TalkerQuestion {
    /// The number of the talker's termination.
    pub(crate) talker: u32,
    pub(crate) question: Question,
}
