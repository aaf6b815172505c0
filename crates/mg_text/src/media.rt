use crate::tree_list::TreeList;
use mg_scan::Span;
use mg_words::Mode;

/// The value of a property in a LocalControl.
#[derive(Clone, Copy, Debug, PartialEq, Eq)]
pub enum PropertyValue {
    Word(Span),
    /// Quoted text, without its quotation marks.
    Quoted(Span),
    /// A group, whose content is not kept.
    Group,
}

/// A part of a LocalControl (RFC 3525, section 7.1.7).
#[derive(Clone, Copy, Debug, PartialEq, Eq)]
pub enum ControlPart {
    Mode(Mode),
    /// Whether the value is `ON`.
    ReservedValue(bool),
    /// Whether the value is `ON`.
    ReservedGroup(bool),
    /// A package's property: the span of its name, and its optional value.
    Property(Span, Option<PropertyValue>),
}

/// A part of a stream (RFC 3525, section 7.1.6).
#[derive(Drop)]
pub enum StreamPart {
    /// The session description of the gateway's side, without its braces.
    Local(Span),
    /// The session description of the other side, without its braces.
    Remote(Span),
    LocalControl(TreeList<ControlPart>),
}

/// A part of a Media descriptor (RFC 3525, section 7.1.4).
#[derive(Drop)]
pub enum MediaPart {
    /// A part outside a Stream descriptor: it belongs to stream 1.
    Part(StreamPart),
    /// A stream's number and its parts.
    Stream(u32, TreeList<StreamPart>),
    /// A TerminationState, and whether it has content.
    TerminationState(bool),
}
