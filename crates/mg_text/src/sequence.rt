ghost use Rattle.std.specs.Prelude.{◌≡◌, length};
ghost use Rattle.mg_text.specs.aids.Reading.{Agrees};
ghost use Rattle.mg_text.specs.Grammar.{body_of};
ghost use Rattle.mg_text.specs.aids.Requests.{request_at, ranges_at, answer_at, item_at, sequence_at, error_at, body_at};

use crate::body::{Body, MessageItem, Range};
use crate::fault::ReadFault;
use crate::from_word::meaning_at;
use crate::group::group_at;
use crate::keyword::Keyword;
use crate::lists::{FromTokens, braced_at};
use crate::marks::{mark_at, place_of, word_at};
use crate::request::{Action, Request};
use crate::tree_list::TreeList;
use mg_scan::{Token, TokenKind};
use std::alloc::Global;

/// Parses a request after its keyword.
#[tactic(auto, unfolding(crate::specs::aids::Requests::request_at))]
fn request_at<'t>(
    alloc: Global,
    source: &[u8],
    tokens: &'t [Token],
) -> Result<(Option<MessageItem>, &'t [Token]), ReadFault>
    ensures { Agrees (λ x. (x.0, x.1.now)) result (request_at source.now tokens.now) }
{
    let rest = mark_at(source, TokenKind::Equals, tokens)?;
    let (number, rest) = meaning_at::<u32>(source, rest)?;
    let (actions, rest) = braced_at::<Action>(alloc, source, rest)?;
    let request = Request { number, actions };
    Ok((Some(MessageItem::Request(request)), rest))
}

/// Parses an acknowledgement after its keyword.
#[tactic(auto, unfolding(crate::specs::aids::Requests::ranges_at))]
fn ranges_at<'t>(
    alloc: Global,
    source: &[u8],
    tokens: &'t [Token],
) -> Result<(Option<MessageItem>, &'t [Token]), ReadFault>
    ensures { Agrees (λ x. (x.0, x.1.now)) result (ranges_at source.now tokens.now) }
{
    let (ranges, rest) = braced_at::<Range>(alloc, source, tokens)?;
    Ok((Some(MessageItem::Acknowledgement(ranges)), rest))
}

/// Parses a Reply or Pending item after its keyword. Returns no item, because such an item is not kept.
#[tactic(auto, unfolding(crate::specs::aids::Requests::answer_at))]
fn answer_at<'t>(
    source: &[u8],
    tokens: &'t [Token],
) -> Result<(Option<MessageItem>, &'t [Token]), ReadFault>
    ensures { Agrees (λ x. (x.0, x.1.now)) result (answer_at source.now tokens.now) }
{
    let rest = mark_at(source, TokenKind::Equals, tokens)?;
    let (_, rest) = meaning_at::<u32>(source, rest)?;
    let rest = group_at(source, rest)?;
    Ok((None, rest))
}

/// Parses an item of a message. Returns the item, if it is kept.
#[tactic(auto, unfolding(crate::specs::aids::Requests::item_at))]
fn item_at<'t>(
    alloc: Global,
    source: &[u8],
    tokens: &'t [Token],
) -> Result<(Option<MessageItem>, &'t [Token]), ReadFault>
    ensures { Agrees (λ x. (x.0, x.1.now)) result (item_at source.now tokens.now) }
{
    let (keyword, rest) = meaning_at::<Keyword>(source, tokens)?;
    match keyword {
        Keyword::Transaction => request_at(alloc, source, rest),
        Keyword::TransactionResponseAck => ranges_at(alloc, source, rest),
        Keyword::Reply | Keyword::Pending => answer_at(source, rest),
        _ => Err(ReadFault::Syntax(place_of(source, tokens))),
    }
}

/// Parses the items of a message, up to the end of the tokens. Returns the items that are kept.
fn sequence_at(
    alloc: Global,
    source: &[u8],
    tokens: &[Token],
) -> Result<Vec<MessageItem>, ReadFault>
    ensures { Agrees (λ x. x.items) result (sequence_at source.now (length tokens.now) tokens.now) }
{
    let mut items = Vec::new(alloc);
    let mut rest = tokens;
    for _ in 0..tokens.len() {
        let (item, after) = item_at(alloc, source, rest)?;
        if let Some(item) = item {
            items.push(item)?;
        }
        if after.is_empty() {
            return Ok(items);
        }
        rest = after;
    }
    Err(ReadFault::Syntax(place_of(source, rest)))
}

/// Returns the body with these items, or `Ignored` if there are none.
fn body_of(items: Vec<MessageItem>) -> Body
    ensures value { result ≡ body_of items.items }
{
    if items.is_empty() {
        Body::Ignored
    } else {
        Body::Requests(TreeList::new(items))
    }
}

/// Parses an Error body after its keyword, up to the end of the tokens.
#[tactic(auto, unfolding(crate::specs::aids::Requests::error_at))]
fn error_at(source: &[u8], tokens: &[Token]) -> Result<Body, ReadFault>
    ensures { Agrees (λ x. x) result (error_at source.now tokens.now) }
{
    let rest = mark_at(source, TokenKind::Equals, tokens)?;
    let (_, rest) = word_at(source, rest)?;
    let rest = group_at(source, rest)?;
    if rest.is_empty() {
        Ok(Body::Ignored)
    } else {
        Err(ReadFault::Syntax(place_of(source, rest)))
    }
}

/// Parses the body of a message, up to the end of the tokens.
#[tactic(auto, unfolding(crate::specs::aids::Requests::body_at))]
pub fn body_at(alloc: Global, source: &[u8], tokens: &[Token]) -> Result<Body, ReadFault>
    ensures { Agrees (λ x. x) result (body_at source.now tokens.now) }
{
    let (keyword, rest) = meaning_at::<Keyword>(source, tokens)?;
    match keyword {
        Keyword::Error => error_at(source, rest),
        _ => {
            let items = sequence_at(alloc, source, tokens)?;
            Ok(body_of(items))
        }
    }
}
