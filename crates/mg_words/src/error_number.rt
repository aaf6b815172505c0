ghost use Rattle.std.specs.Prelude.{◌≡◌, ◌++◌, ◌+◌, ◌<◌, ◌≤◌, length, decimal};
ghost use Rattle.mg_words.specs.ErrorNumber.{error_row, error_text};

use arrayvec::ArrayVec;
use itoa::Buffer;

/// An upper bound on the length of an error descriptor, in bytes.
pub const ERROR_LIMIT: usize = 64;

/// Why a message, a request, an action or a command is answered with an error. The numbers are from the standard's list
/// of error codes (RFC 3525, section 14.2; H.248.8); the texts are this gateway's own.
#[derive(Clone, Copy, Debug, PartialEq, Eq)]
pub enum ErrorNumber {
    /// The message does not follow the grammar.
    Syntax,
    /// The message is for another version of the protocol.
    Version,
    /// The command or the triple does not allow this name.
    IdentifierNotAllowed,
    /// The action's context does not exist, or is the null context, which cannot be entered and has no topology.
    UnknownContext,
    /// The limit on contexts is reached, or context numbers are exhausted.
    NoContextLeft,
    /// Both names of a Oneway triple match the same termination.
    IllegalCombination,
    /// No termination has this name.
    UnknownTermination,
    /// A command names all terminations of a context that has none or does not exist.
    WildcardMatchedNone,
    /// No slot is free, or termination numbers are exhausted.
    NoTerminationLeft,
    /// An Add names an existing termination, or a Move names the context that the termination is in.
    AlreadyInContext,
    /// The context has as many members as the limit allows.
    ContextFull,
    /// The termination is in another context, or a triple names something that is not a member of the context.
    NotInContext,
    /// A descriptor has content that this gateway does not support. Or an action has a Priority, an Emergency, or a
    /// ContextAudit of more than the topology.
    DescriptorNotServed,
    /// A property, or its value, is not supported.
    PropertyNotServed,
    /// A keyword or a property that may occur only once occurs again.
    DescriptorTwice,
    /// The message exceeds a limit, has a command with the prefix `W-`, or asks for a command, context, stream or
    /// reservation that is not supported.
    NotServed,
    /// A Local or Remote cannot be read, or none of its session descriptions is acceptable.
    NoMedia,
    /// The reply would exceed the size limit. The request's commands stay in effect.
    ReplyTooLong,
}

fn push(out: &mut ArrayVec<u8, ERROR_LIMIT>, part: &[u8])
    requires room { length out.old.items + length part.now ≤ ERROR_LIMIT }
    ensures value { out.new.items ≡ out.old.items ++ part.now }
    ensures len { length out.new.items ≡ length out.old.items + length part.now }
{
    let _ = out.try_extend_from_slice(part);
}

impl ErrorNumber {
    #[tactic(auto, unfolding(crate::specs::ErrorNumber::error_row))]
    fn row(self) -> (u16, &'static str)
        ensures value { (result.0, result.1.now) ≡ error_row self }
        ensures number { result.0 < 1000 }
        ensures text { length result.1.now ≤ 40 }
    {
        match self {
            ErrorNumber::Syntax => (400, "syntax"),
            ErrorNumber::Version => (406, "version"),
            ErrorNumber::IdentifierNotAllowed => (410, "identifier not allowed here"),
            ErrorNumber::UnknownContext => (411, "unknown context"),
            ErrorNumber::NoContextLeft => (412, "no context left"),
            ErrorNumber::IllegalCombination => (421, "illegal combination"),
            ErrorNumber::UnknownTermination => (430, "unknown termination"),
            ErrorNumber::WildcardMatchedNone => (431, "wildcard matched none"),
            ErrorNumber::NoTerminationLeft => (432, "no termination or port left"),
            ErrorNumber::AlreadyInContext => (433, "already in a context"),
            ErrorNumber::ContextFull => (434, "context full"),
            ErrorNumber::NotInContext => (435, "termination not in context"),
            ErrorNumber::DescriptorNotServed => (444, "descriptor not served"),
            ErrorNumber::PropertyNotServed => (445, "property not served"),
            ErrorNumber::DescriptorTwice => (448, "descriptor twice"),
            ErrorNumber::NotServed => (501, "not served"),
            ErrorNumber::NoMedia => (515, "no media that can be served"),
            ErrorNumber::ReplyTooLong => (533, "reply too long"),
        }
    }

    /// Returns the number that the controller sees.
    pub fn number(self) -> u16
        ensures value { result ≡ (error_row self).0 }
    {
        self.row().0
    }

    /// Returns the text, without its quotation marks.
    pub fn as_str(self) -> &'static str
        ensures value { result.now ≡ (error_row self).1 }
    {
        self.row().1
    }

    /// Writes the error descriptor, `Error=NUMBER{"TEXT"}` (at most 64 bytes).
    #[tactic(auto, using(crate::proofs::ErrorLemmas::parts), unfolding(crate::specs::ErrorNumber::error_text))]
    pub fn descriptor(self) -> ArrayVec<u8, ERROR_LIMIT>
        ensures value { result.items ≡ error_text self }
        ensures short { length result.items ≤ ERROR_LIMIT }
    {
        let (number, text) = self.row();
        let mut buffer = Buffer::new();
        let mut out = ArrayVec::new();
        push(&mut out, b"Error=");
        push(&mut out, buffer.format(number).as_bytes());
        push(&mut out, b"{\"");
        push(&mut out, text.as_bytes());
        push(&mut out, b"\"}");
        out
    }
}
