use crate::question::Question;
use mg_arguments::HeardRequest;

/// A request, and the question that it asks.
#[derive(Drop)]
pub(crate) struct Asking<'a> {
    pub(crate) request: &'a HeardRequest,
    pub(crate) question: Question,
}
