ghost use Rattle.std.specs.Prelude.{◌≡◌, None, Some, MatchOption};
ghost use Rattle.mg_text.specs.aids.Words.{command_named, headed, command_of};

use crate::from_word::FromWord;
use crate::keyword::{Keyword, keyword_of};
use mg_words::{CommandWord, after_prefix};

/// A command's keyword and its prefixes.
#[derive(Clone, Copy, Debug, PartialEq, Eq)]
pub struct CommandHead {
    pub word: CommandWord,
    pub is_optional: bool,
    pub wants_wildcard: bool,
}

/// Returns the command that a keyword names, or `None` if it isn't a command's keyword.
fn command_named(keyword: Keyword) -> Option<CommandWord>
    ensures value { result ≡ command_named keyword }
{
    match keyword {
        Keyword::Add => Some(CommandWord::Add),
        Keyword::Modify => Some(CommandWord::Modify),
        Keyword::Move => Some(CommandWord::Move),
        Keyword::Subtract => Some(CommandWord::Subtract),
        Keyword::AuditValue => Some(CommandWord::AuditValue),
        Keyword::AuditCapability => Some(CommandWord::AuditCapability),
        Keyword::Notify => Some(CommandWord::Notify),
        Keyword::ServiceChange => Some(CommandWord::ServiceChange),
        _ => None,
    }
}

/// Returns the command that a keyword names, together with these prefixes. Returns `None` if it isn't a command's
/// keyword.
fn headed(is_optional: bool, wants_wildcard: bool, keyword: Keyword) -> Option<CommandHead>
    ensures value { result ≡ headed is_optional wants_wildcard keyword }
{
    let word = command_named(keyword)?;
    Some(CommandHead {
        word,
        is_optional,
        wants_wildcard,
    })
}

/// Parses a command's keyword, alone or after `O-W-`, `O-` or `W-`.
impl FromWord for CommandHead {
    ghost meaning = { command_of };

    #[tactic(auto, unfolding(crate::specs::aids::Words::command_of))]
    fn from_word(text: &[u8]) -> Option<CommandHead> {
        if let Some(keyword) = keyword_of(text) {
            return headed(false, false, keyword);
        }
        if let Some(rest) = after_prefix(b"O-W-", text) {
            return headed(true, true, keyword_of(rest)?);
        }
        if let Some(rest) = after_prefix(b"O-", text) {
            return headed(true, false, keyword_of(rest)?);
        }
        let rest = after_prefix(b"W-", text)?;
        headed(false, true, keyword_of(rest)?)
    }
}
