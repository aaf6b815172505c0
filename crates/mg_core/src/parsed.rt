use mg_text::{ErrorNumber, Message};

/// The result of reading a control datagram.
#[derive(Drop)]
pub enum Parsed {
    /// The datagram is this message.
    Message(Message),
    /// The datagram is rejected as a whole, with this error.
    Refused(ErrorNumber),
}
