ghost use Rattle.std.specs.Prelude.{◌≡◌};
ghost use Rattle.mg_text.specs.aids.Reading.{Agrees};
ghost use Rattle.mg_text.specs.aids.Commands.{descriptors_at, command_at};

use crate::command::Command;
use crate::command_head::CommandHead;
use crate::descriptor::Descriptor;
use crate::descriptors::{optional_audit_at, skipped_at};
use crate::fault::ReadFault;
use crate::from_word::meaning_at;
use crate::lists::{FromTokens, optional_braced_at};
use crate::marks::{mark_at, term_at};
use crate::tree_list::TreeList;
use mg_scan::{Token, TokenKind};
use mg_words::CommandWord;
use std::alloc::Global;

/// Parses the descriptors after the name of a command's termination.
fn descriptors_at<'t>(
    alloc: Global,
    source: &[u8],
    word: CommandWord,
    tokens: &'t [Token],
) -> Result<(TreeList<Descriptor>, &'t [Token]), ReadFault>
    ensures { Agrees (λ x. (x.0, x.1.now)) result (descriptors_at source.now word tokens.now) }
{
    match word {
        CommandWord::Add | CommandWord::Modify | CommandWord::Move => {
            optional_braced_at::<Descriptor>(alloc, source, tokens)
        }
        CommandWord::Subtract | CommandWord::AuditValue => {
            optional_audit_at(alloc, source, tokens)
        }
        CommandWord::AuditCapability | CommandWord::Notify | CommandWord::ServiceChange => {
            skipped_at(alloc, source, tokens)
        }
    }
}

/// Parses a command.
impl FromTokens for Command {
    ghost reading = { command_at };

    #[tactic(auto, unfolding(crate::specs::aids::Commands::command_at))]
    fn from_tokens<'t>(
        alloc: Global,
        source: &[u8],
        tokens: &'t [Token],
    ) -> Result<(Command, &'t [Token]), ReadFault> {
        let (head, rest) = meaning_at::<CommandHead>(source, tokens)?;
        let rest = mark_at(source, TokenKind::Equals, rest)?;
        let (term, rest) = term_at(source, rest)?;
        let (descriptors, rest) = descriptors_at(alloc, source, head.word, rest)?;
        let command = Command {
            word: head.word,
            is_optional: head.is_optional,
            wants_wildcard: head.wants_wildcard,
            term,
            descriptors,
        };
        Ok((command, rest))
    }
}
