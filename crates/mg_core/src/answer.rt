/// Whether a control datagram is answered.
#[derive(Clone, Copy, Debug, PartialEq, Eq)]
pub enum Answer {
    /// The answer goes to the source of the datagram.
    Send,
    /// There is no answer.
    Silent,
}
