ghost use Rattle.std.specs.Prelude.{◌≡◌};
ghost use Rattle.mg_text.specs.aids.Reading.{Agrees};
ghost use Rattle.mg_text.specs.aids.Commands.{audit_words_at, assigned_at, content_at, other_at, descriptor_at, audit_at, optional_audit_at, skipped_at};

use crate::descriptor::{AuditWord, Descriptor, OtherWord};
use crate::fault::ReadFault;
use crate::from_word::meaning_at;
use crate::group::{after_group, filled_at};
use crate::keyword::Keyword;
use crate::lists::{FromTokens, any_braced_at, braced_at};
use crate::marks::{mark_at, place_of, word_at};
use crate::media::MediaPart;
use crate::tree_list::TreeList;
use mg_scan::{Token, TokenKind, after_mark};
use std::alloc::Global;

/// Parses the words of an Audit after its keyword.
fn audit_words_at<'t>(
    alloc: Global,
    source: &[u8],
    tokens: &'t [Token],
) -> Result<(TreeList<AuditWord>, &'t [Token]), ReadFault>
    ensures { Agrees (λ x. (x.0, x.1.now)) result (audit_words_at source.now tokens.now) }
{
    any_braced_at::<AuditWord>(alloc, source, tokens)
}

/// Parses the value of a descriptor after its equals sign.
#[tactic(auto, unfolding(crate::specs::aids::Commands::assigned_at))]
fn assigned_at<'t>(source: &[u8], tokens: &'t [Token]) -> Result<&'t [Token], ReadFault>
    ensures { Agrees (λ x. x.now) result (assigned_at source.now tokens.now) }
{
    if let Some(inside) = after_mark(TokenKind::Open, tokens) {
        return after_group(source, inside);
    }
    let (_, rest) = word_at(source, tokens)?;
    let (_, rest) = filled_at(source, rest)?;
    Ok(rest)
}

/// Parses the content after a descriptor's keyword. Returns whether there is any content.
#[tactic(auto, unfolding(crate::specs::aids::Commands::content_at))]
fn content_at<'t>(source: &[u8], tokens: &'t [Token]) -> Result<(bool, &'t [Token]), ReadFault>
    ensures { Agrees (λ x. (x.0, x.1.now)) result (content_at source.now tokens.now) }
{
    let Some(value) = after_mark(TokenKind::Equals, tokens) else {
        return filled_at(source, tokens);
    };
    let rest = assigned_at(source, value)?;
    Ok((true, rest))
}

/// Parses the rest of a descriptor after its keyword, and discards the content.
#[tactic(auto, unfolding(crate::specs::aids::Commands::other_at))]
fn other_at<'t>(
    source: &[u8],
    word: OtherWord,
    tokens: &'t [Token],
) -> Result<(Descriptor, &'t [Token]), ReadFault>
    ensures { Agrees (λ x. (x.0, x.1.now)) result (other_at source.now word tokens.now) }
{
    let (has_content, rest) = content_at(source, tokens)?;
    Ok((Descriptor::Other(word, has_content), rest))
}

/// Parses a descriptor of an Add, Modify or Move.
impl FromTokens for Descriptor {
    ghost reading = { descriptor_at };

    #[tactic(auto, unfolding(crate::specs::aids::Commands::descriptor_at))]
    fn from_tokens<'t>(
        alloc: Global,
        source: &[u8],
        tokens: &'t [Token],
    ) -> Result<(Descriptor, &'t [Token]), ReadFault> {
        let (keyword, rest) = meaning_at::<Keyword>(source, tokens)?;
        match keyword {
            Keyword::Media => {
                let (parts, rest) = braced_at::<MediaPart>(alloc, source, rest)?;
                Ok((Descriptor::Media(parts), rest))
            }
            Keyword::Audit => {
                let (words, rest) = audit_words_at(alloc, source, rest)?;
                Ok((Descriptor::Audit(words), rest))
            }
            Keyword::Signals => other_at(source, OtherWord::Signals, rest),
            Keyword::Events => other_at(source, OtherWord::Events, rest),
            Keyword::Modem => other_at(source, OtherWord::Modem, rest),
            Keyword::Mux => other_at(source, OtherWord::Mux, rest),
            Keyword::DigitMap => other_at(source, OtherWord::DigitMap, rest),
            Keyword::EventBuffer => other_at(source, OtherWord::EventBuffer, rest),
            _ => Err(ReadFault::Syntax(place_of(source, tokens))),
        }
    }
}

/// Parses an Audit.
#[tactic(auto, unfolding(crate::specs::aids::Commands::audit_at))]
fn audit_at<'t>(
    alloc: Global,
    source: &[u8],
    tokens: &'t [Token],
) -> Result<(TreeList<AuditWord>, &'t [Token]), ReadFault>
    ensures { Agrees (λ x. (x.0, x.1.now)) result (audit_at source.now tokens.now) }
{
    let (keyword, rest) = meaning_at::<Keyword>(source, tokens)?;
    match keyword {
        Keyword::Audit => audit_words_at(alloc, source, rest),
        _ => Err(ReadFault::Syntax(place_of(source, tokens))),
    }
}

/// Parses an optional Audit in braces.
#[tactic(auto, unfolding(crate::specs::aids::Commands::optional_audit_at))]
pub fn optional_audit_at<'t>(
    alloc: Global,
    source: &[u8],
    tokens: &'t [Token],
) -> Result<(TreeList<Descriptor>, &'t [Token]), ReadFault>
    ensures { Agrees (λ x. (x.0, x.1.now)) result (optional_audit_at source.now tokens.now) }
{
    let Some(inside) = after_mark(TokenKind::Open, tokens) else {
        return Ok((TreeList::new(Vec::new(alloc)), tokens));
    };
    let (words, rest) = audit_at(alloc, source, inside)?;
    let rest = mark_at(source, TokenKind::Close, rest)?;
    let audit = vec![in alloc; Descriptor::Audit(words)]?;
    Ok((TreeList::new(audit), rest))
}

/// Skips an optional group. Returns no descriptors.
#[tactic(auto, unfolding(crate::specs::aids::Commands::skipped_at))]
pub fn skipped_at<'t>(
    alloc: Global,
    source: &[u8],
    tokens: &'t [Token],
) -> Result<(TreeList<Descriptor>, &'t [Token]), ReadFault>
    ensures { Agrees (λ x. (x.0, x.1.now)) result (skipped_at source.now tokens.now) }
{
    let (_, rest) = filled_at(source, tokens)?;
    Ok((TreeList::new(Vec::new(alloc)), rest))
}
