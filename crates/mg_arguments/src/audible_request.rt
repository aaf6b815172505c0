use crate::heard_request::HeardRequest;

/// A question about when a talker was audible while a script ran.
#[derive(Drop)]
pub struct AudibleRequest {
    /// The number of the talker's termination.
    pub talker: u32,
    /// The script, the style of the answer and the query. The field `at` is `None`.
    pub heard: HeardRequest,
}
