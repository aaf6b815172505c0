use crate::control::Control;
use mg_sdp::Chosen;

/// What a reply reports about a termination's stream (RFC 3525, sections 7.1.4 to 7.1.8).
#[derive(Clone, Copy, Debug, PartialEq, Eq)]
pub enum Media {
    /// Only the Local that the command set.
    Local(Chosen),
    /// The whole stream, for an audit.
    Whole {
        control: Control,
        /// The Local, if it was set: the media that the gateway receives.
        local: Option<Chosen>,
        /// The Remote, if it was set: the address and port to which the gateway sends, and the law.
        remote: Option<Chosen>,
    },
}
