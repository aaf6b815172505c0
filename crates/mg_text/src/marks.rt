ghost use Rattle.std.specs.Prelude.{◌≡◌, Some, None, MatchOption};
ghost use Rattle.mg_text.specs.aids.Reading.{Agrees, mark_at, span_at, word_at, named_at, term_at, place_of_rest};
ghost use Rattle.mg_scan.specs.aids.Marks.{after_mark, is_kind};

use crate::fault::ReadFault;
use crate::keyword::{Keyword, is_named};
use mg_scan::{Span, Token, TokenKind, after_mark, is_kind};
use mg_words::is_term;

/// Returns the offset of the first token, or the end of the source if no token is left.
pub fn place_of(source: &[u8], tokens: &[Token]) -> usize
    ensures value { result ≡ place_of_rest source.now tokens.now }
{
    match tokens {
        [] => source.len(),
        [first, ..] => first.span.start,
    }
}

/// Skips a mark.
#[tactic(auto, unfolding(crate::specs::aids::Reading::mark_at, mg_scan::specs::aids::Marks::after_mark))]
pub fn mark_at<'t>(
    source: &[u8],
    kind: TokenKind,
    tokens: &'t [Token],
) -> Result<&'t [Token], ReadFault>
    ensures { Agrees (λ x. x.now) result (mark_at source.now kind tokens.now) }
{
    match after_mark(kind, tokens) {
        Some(rest) => Ok(rest),
        None => Err(ReadFault::Syntax(place_of(source, tokens))),
    }
}

/// Parses a token of this kind. Returns its span.
#[tactic(auto, unfolding(crate::specs::aids::Reading::span_at))]
pub fn span_at<'t>(
    source: &[u8],
    kind: TokenKind,
    tokens: &'t [Token],
) -> Result<(Span, &'t [Token]), ReadFault>
    ensures { Agrees (λ x. (x.0, x.1.now)) result (span_at source.now kind tokens.now) }
{
    match tokens {
        [first, rest @ ..] if is_kind(first.kind, kind) => Ok((first.span, rest)),
        _ => Err(ReadFault::Syntax(place_of(source, tokens))),
    }
}

/// Parses a word. Returns its span.
pub fn word_at<'t>(source: &[u8], tokens: &'t [Token]) -> Result<(Span, &'t [Token]), ReadFault>
    ensures { Agrees (λ x. (x.0, x.1.now)) result (word_at source.now tokens.now) }
{
    span_at(source, TokenKind::Word, tokens)
}

/// Skips a keyword, in either of its forms.
#[tactic(auto, unfolding(crate::specs::aids::Reading::named_at))]
pub fn named_at<'t>(
    source: &[u8],
    keyword: Keyword,
    tokens: &'t [Token],
) -> Result<&'t [Token], ReadFault>
    ensures { Agrees (λ x. x.now) result (named_at source.now keyword tokens.now) }
{
    let (word, rest) = word_at(source, tokens)?;
    if is_named(word.text(source), keyword) {
        Ok(rest)
    } else {
        Err(ReadFault::Syntax(word.start))
    }
}

/// Parses the name of a termination. Returns its span.
#[tactic(auto, unfolding(crate::specs::aids::Reading::term_at))]
pub fn term_at<'t>(source: &[u8], tokens: &'t [Token]) -> Result<(Span, &'t [Token]), ReadFault>
    ensures { Agrees (λ x. (x.0, x.1.now)) result (term_at source.now tokens.now) }
{
    let (word, rest) = word_at(source, tokens)?;
    if is_term(word.text(source)) {
        Ok((word, rest))
    } else {
        Err(ReadFault::Syntax(word.start))
    }
}
