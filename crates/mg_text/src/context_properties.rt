ghost use Rattle.std.specs.Prelude.{◌≡◌};
ghost use Rattle.mg_text.specs.aids.Reading.{Agrees};
ghost use Rattle.mg_text.specs.aids.Requests.{triple_at, priority_at, emergency_at, property_at, begins_property};

use crate::context_property::{ContextProperty, ContextWord, NamedTriple};
use crate::fault::ReadFault;
use crate::from_word::meaning_at;
use crate::keyword::{Keyword, keyword_of};
use crate::lists::{FromTokens, braced_at};
use crate::marks::{mark_at, place_of, term_at, word_at};
use mg_scan::{Token, TokenKind, after_mark};
use mg_words::Association;
use std::alloc::Global;

/// Parses a topology triple.
impl FromTokens for NamedTriple {
    ghost reading = { triple_at };

    #[tactic(auto, unfolding(crate::specs::aids::Requests::triple_at))]
    fn from_tokens<'t>(
        alloc: Global,
        source: &[u8],
        tokens: &'t [Token],
    ) -> Result<(NamedTriple, &'t [Token]), ReadFault> {
        let _ = alloc;
        let (first, rest) = term_at(source, tokens)?;
        let rest = mark_at(source, TokenKind::Comma, rest)?;
        let (second, rest) = term_at(source, rest)?;
        let rest = mark_at(source, TokenKind::Comma, rest)?;
        let (association, rest) = meaning_at::<Association>(source, rest)?;
        let triple = NamedTriple {
            first,
            second,
            association,
        };
        Ok((triple, rest))
    }
}

/// Parses a Priority value, after its keyword.
#[tactic(auto, unfolding(crate::specs::aids::Requests::priority_at))]
fn priority_at<'t>(
    source: &[u8],
    tokens: &'t [Token],
) -> Result<(ContextProperty, &'t [Token]), ReadFault>
    ensures { Agrees (λ x. (x.0, x.1.now)) result (priority_at source.now tokens.now) }
{
    let rest = mark_at(source, TokenKind::Equals, tokens)?;
    let (word, rest) = word_at(source, rest)?;
    Ok((ContextProperty::Priority(word), rest))
}

/// Parses an Emergency value, after its keyword.
#[tactic(auto, unfolding(crate::specs::aids::Requests::emergency_at))]
fn emergency_at<'t>(
    source: &[u8],
    tokens: &'t [Token],
) -> Result<(ContextProperty, &'t [Token]), ReadFault>
    ensures { Agrees (λ x. (x.0, x.1.now)) result (emergency_at source.now tokens.now) }
{
    let Some(rest) = after_mark(TokenKind::Equals, tokens) else {
        return Ok((ContextProperty::Emergency(None), tokens));
    };
    let (word, rest) = word_at(source, rest)?;
    Ok((ContextProperty::Emergency(Some(word)), rest))
}

/// Parses a property of a context.
#[tactic(auto, unfolding(crate::specs::aids::Requests::property_at))]
pub fn property_at<'t>(
    alloc: Global,
    source: &[u8],
    tokens: &'t [Token],
) -> Result<(ContextProperty, &'t [Token]), ReadFault>
    ensures { Agrees (λ x. (x.0, x.1.now)) result (property_at source.now tokens.now) }
{
    let (keyword, rest) = meaning_at::<Keyword>(source, tokens)?;
    match keyword {
        Keyword::Topology => {
            let (triples, rest) = braced_at::<NamedTriple>(alloc, source, rest)?;
            Ok((ContextProperty::Topology(triples), rest))
        }
        Keyword::ContextAudit => {
            let (words, rest) = braced_at::<ContextWord>(alloc, source, rest)?;
            Ok((ContextProperty::ContextAudit(words), rest))
        }
        Keyword::Priority => priority_at(source, rest),
        Keyword::Emergency => emergency_at(source, rest),
        _ => Err(ReadFault::Syntax(place_of(source, tokens))),
    }
}

/// Returns whether the tokens start with the keyword of a property.
#[tactic(auto, unfolding(crate::specs::aids::Requests::begins_property))]
pub fn begins_property(source: &[u8], tokens: &[Token]) -> bool
    ensures value { result ≡ begins_property source.now tokens.now }
{
    match tokens {
        [] => false,
        [first, ..] => matches!(
            keyword_of(first.span.text(source)),
            Some(Keyword::Topology | Keyword::ContextAudit | Keyword::Priority | Keyword::Emergency)
        ),
    }
}
