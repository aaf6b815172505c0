use mg_scan::Span;
use mg_text::{AuditWord, ControlPart, OtherWord};

/// A part of a command's descriptors.
///
/// A part of a stream has the stream's number; a part outside a Stream belongs to stream 1.
#[derive(Clone, Copy)]
pub enum Part {
    /// The keyword Media.
    Media,
    /// The keyword Audit.
    Audit,
    /// A word in an Audit descriptor.
    Audited(AuditWord),
    /// A descriptor whose content is not kept, and whether it has any content.
    Other(OtherWord, bool),
    /// A TerminationState, and whether it has content.
    TerminationState(bool),
    /// The keyword Stream.
    Stream(u32),
    /// The session description of the gateway's side.
    Local(u32, Span),
    /// The session description of the other side.
    Remote(u32, Span),
    /// The keyword LocalControl.
    LocalControl(u32),
    /// A part of a LocalControl.
    Control(u32, ControlPart),
}
