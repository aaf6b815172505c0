ghost use Rattle.std.specs.Prelude.{◌≡◌, ℕ, List, Result, length};
ghost use Rattle.mg_scan.specs.declared.token.Token.{Token};
ghost use Rattle.mg_text.specs.aids.Reading.{Agrees, meaning_at, items_at, braced_at, any_braced_at, optional_braced_at};

use crate::fault::ReadFault;
use crate::from_word::{FromWord, meaning_at};
use crate::marks::{mark_at, place_of};
use crate::tree_list::TreeList;
use mg_scan::{Token, TokenKind, after_mark};
use std::alloc::Global;

/// A type that tokens of a message can be parsed as.
pub trait FromTokens: Drop + Sized {
    /// The result of parsing: a value and the tokens after it, or the position of a fault.
    ghost reading: { List ℕ → List Token → Result (Self × List Token) ℕ };

    fn from_tokens<'t>(
        alloc: Global,
        source: &[u8],
        tokens: &'t [Token],
    ) -> Result<(Self, &'t [Token]), ReadFault>
        ensures { Agrees (λ x. (x.0, x.1.now)) result (reading source.now tokens.now) };
}

/// Parses a single word.
impl<W: FromWord> FromTokens for W {
    ghost reading = { λ source tokens. meaning_at W.meaning source tokens };

    fn from_tokens<'t>(
        alloc: Global,
        source: &[u8],
        tokens: &'t [Token],
    ) -> Result<(W, &'t [Token]), ReadFault> {
        let _ = alloc;
        meaning_at::<W>(source, tokens)
    }
}

/// Parses comma-separated items, up to their closing brace.
pub fn items_at<'t, T: FromTokens>(
    alloc: Global,
    source: &[u8],
    tokens: &'t [Token],
) -> Result<(TreeList<T>, &'t [Token]), ReadFault>
    ensures { Agrees (λ x. (x.0, x.1.now)) result (items_at source.now (T.reading source.now) tokens.now) }
{
    let mut items = Vec::new(alloc);
    let mut rest = tokens;
    for _ in 0..tokens.len() {
        let (item, after) = T::from_tokens(alloc, source, rest)?;
        items.push(item)?;
        let Some(next) = after_mark(TokenKind::Comma, after) else {
            let rest = mark_at(source, TokenKind::Close, after)?;
            return Ok((TreeList::new(items), rest));
        };
        rest = next;
    }
    Err(ReadFault::Syntax(place_of(source, rest)))
}

/// Parses one or more items in braces.
#[tactic(auto, unfolding(crate::specs::aids::Reading::braced_at))]
pub fn braced_at<'t, T: FromTokens>(
    alloc: Global,
    source: &[u8],
    tokens: &'t [Token],
) -> Result<(TreeList<T>, &'t [Token]), ReadFault>
    ensures { Agrees (λ x. (x.0, x.1.now)) result (braced_at source.now (T.reading source.now) tokens.now) }
{
    let rest = mark_at(source, TokenKind::Open, tokens)?;
    items_at(alloc, source, rest)
}

/// Parses any number of items in braces.
#[tactic(auto, unfolding(crate::specs::aids::Reading::any_braced_at))]
pub fn any_braced_at<'t, T: FromTokens>(
    alloc: Global,
    source: &[u8],
    tokens: &'t [Token],
) -> Result<(TreeList<T>, &'t [Token]), ReadFault>
    ensures { Agrees (λ x. (x.0, x.1.now)) result (any_braced_at source.now (T.reading source.now) tokens.now) }
{
    let inside = mark_at(source, TokenKind::Open, tokens)?;
    if let Some(rest) = after_mark(TokenKind::Close, inside) {
        return Ok((TreeList::new(Vec::new(alloc)), rest));
    }
    items_at(alloc, source, inside)
}

/// Parses optional items in braces.
#[tactic(auto, unfolding(crate::specs::aids::Reading::optional_braced_at))]
pub fn optional_braced_at<'t, T: FromTokens>(
    alloc: Global,
    source: &[u8],
    tokens: &'t [Token],
) -> Result<(TreeList<T>, &'t [Token]), ReadFault>
    ensures { Agrees (λ x. (x.0, x.1.now)) result (optional_braced_at source.now (T.reading source.now) tokens.now) }
{
    let Some(inside) = after_mark(TokenKind::Open, tokens) else {
        return Ok((TreeList::new(Vec::new(alloc)), tokens));
    };
    items_at(alloc, source, inside)
}
