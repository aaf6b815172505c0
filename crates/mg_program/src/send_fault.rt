use mg_host::Unsent;

/// Why a datagram wasn't sent.
#[derive(Clone, Copy)]
pub(crate) enum SendFault {
    /// The gateway left it out.
    Unsent(Unsent),
    /// The system's send failed.
    Refused,
}
