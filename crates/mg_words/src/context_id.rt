ghost use Rattle.std.specs.Prelude.{◌≡◌};
ghost use Rattle.mg_words.specs.ContextId.{context_id_of};

use crate::number::number_of;

/// The context that an action names (RFC 3525, section 6.1.2 and Annex B.2, ContextID).
#[derive(Clone, Copy, Debug, PartialEq, Eq)]
pub enum ContextId {
    /// `-`: the null context, which holds the terminations that aren't in any other context.
    Null,
    /// `$`: a new context, which the gateway creates.
    Choose,
    /// `*`: every context.
    All,
    /// The context with this number.
    Number(u32),
}

/// Parses a context identifier. Returns `None` if the text is anything else. The numbers 0, 4294967294 and 4294967295
/// are other spellings of `-`, `$` and `*`.
#[tactic(auto, unfolding(crate::specs::ContextId::context_id_of))]
pub fn context_id_of(text: &[u8]) -> Option<ContextId>
    ensures value { result ≡ context_id_of text.now }
{
    match text {
        b"-" => Some(ContextId::Null),
        b"$" => Some(ContextId::Choose),
        b"*" => Some(ContextId::All),
        _ => match number_of(text) {
            Some(0) => Some(ContextId::Null),
            Some(4294967294) => Some(ContextId::Choose),
            Some(4294967295) => Some(ContextId::All),
            Some(number) => Some(ContextId::Number(number)),
            None => None,
        },
    }
}
