use crate::body::Body;
use mg_scan::Span;

/// A control message.
#[derive(Drop)]
pub struct Message {
    /// The span of the sender's name (RFC 3525, Annex B.2, mId).
    pub sender: Span,
    pub body: Body,
}
