ghost use Rattle.std.specs.Prelude.{◌≡◌};
ghost use Rattle.mg_text.specs.Head.{version_after, version_in_head};

use crate::from_word::FromWord;
use mg_words::{after_prefix, version_in_digits};

/// Returns the version that follows one form of the protocol's name, or `None` if the text has another form.
#[tactic(auto, unfolding(crate::specs::Head::version_after))]
fn version_after(name: &[u8], text: &[u8]) -> Option<u8>
    ensures value { result ≡ version_after name.now text.now }
{
    let digits = after_prefix(name, text)?;
    version_in_digits(digits)
}

/// Parses the first word of a message, which names the version of the protocol.
impl FromWord for u8 {
    ghost meaning = { version_in_head };

    #[tactic(auto, unfolding(crate::specs::Head::version_in_head))]
    fn from_word(text: &[u8]) -> Option<u8> {
        match version_after(b"MEGACO/", text) {
            Some(version) => Some(version),
            None => version_after(b"!/", text),
        }
    }
}
