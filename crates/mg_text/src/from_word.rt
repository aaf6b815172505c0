ghost use Rattle.std.specs.Prelude.{◌≡◌, ℕ, List, Option};
ghost use Rattle.mg_text.specs.aids.Reading.{Agrees, meaning_at};

use crate::fault::ReadFault;
use crate::marks::word_at;
use mg_scan::Token;

/// A type that a word of a message can be parsed as.
pub trait FromWord: Drop + Sized {
    /// The value of a string, if the string has a value.
    ghost meaning: { List ℕ → Option Self };

    fn from_word(text: &[u8]) -> Option<Self>
        ensures value { result ≡ meaning text.now };
}

/// Parses a word as a value.
#[tactic(auto, unfolding(crate::specs::aids::Reading::meaning_at))]
pub fn meaning_at<'t, W: FromWord>(
    source: &[u8],
    tokens: &'t [Token],
) -> Result<(W, &'t [Token]), ReadFault>
    ensures { Agrees (λ x. (x.0, x.1.now)) result (meaning_at W.meaning source.now tokens.now) }
{
    let (word, rest) = word_at(source, tokens)?;
    match W::from_word(word.text(source)) {
        Some(value) => Ok((value, rest)),
        None => Err(ReadFault::Syntax(word.start)),
    }
}
