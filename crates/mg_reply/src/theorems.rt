//! Properties of replies.
//!
//! The functions do nothing: their contracts are the theorems. A proof that needs a theorem calls its function.

ghost use Rattle.mg_reply.specs.Theorems.{NoProperPrefix};
ghost use Rattle.mg_reply.specs.aids.Width.{TooLongByText, AllItemsAreKept};

/// No reply's text is a proper prefix of another reply's text, if the names in both are valid, as their types ensure.
pub fn no_proper_prefix()
    ensures prefix { NoProperPrefix }
{}

/// Whether a reply is too long depends only on the text of its items, not on whether there was room for them.
///
/// The theorem requires each item to be at least 10 bytes long with its comma. It also requires the items to be a
/// single error, or the last of them to end an action.
pub fn too_long_by_text()
    ensures theorem { TooLongByText }
    ensures kept { AllItemsAreKept }
{}
