use crate::media::MediaPart;
use crate::tree_list::TreeList;

/// A descriptor that an Audit asks for (RFC 3525, section 7.1.12).
#[derive(Clone, Copy, Debug, PartialEq, Eq)]
pub enum AuditWord {
    Media,
    Statistics,
    Signals,
    Events,
    Modem,
    Mux,
    DigitMap,
    EventBuffer,
    ObservedEvents,
    Packages,
}

/// A descriptor whose content is not kept.
#[derive(Clone, Copy, Debug, PartialEq, Eq)]
pub enum OtherWord {
    Signals,
    Events,
    Modem,
    Mux,
    DigitMap,
    EventBuffer,
}

/// A descriptor of a command (RFC 3525, section 7.1).
#[derive(Drop)]
pub enum Descriptor {
    Media(TreeList<MediaPart>),
    Audit(TreeList<AuditWord>),
    /// A descriptor of another kind, and whether it has content. A bare keyword, or one directly followed by empty
    /// braces, has none.
    Other(OtherWord, bool),
}
