use mg_sdp::Sessions;

/// The content of a Local or Remote descriptor in a command (RFC 3525, section 7.1.8).
#[derive(Debug, Drop)]
pub enum MediaSetting {
    /// The content is blank, which removes the old setting.
    Clear,
    /// The alternatives of the content. If there are none, the content is blank.
    Offer(Sessions),
    /// The content is malformed, or has more than eight alternatives.
    Unreadable,
}
