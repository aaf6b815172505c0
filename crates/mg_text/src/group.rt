ghost use Rattle.std.specs.Prelude.{◌≡◌};
ghost use Rattle.mg_text.specs.aids.Reading.{Agrees, after_group, group_at, filled_at};

use crate::fault::ReadFault;
use crate::marks::mark_at;
use mg_scan::{Token, TokenKind, after_mark, is_kind};

/// Skips the rest of a group whose opening brace has already been read.
#[tactic(auto, using(crate::proofs::GroupSteps::steps))]
pub fn after_group<'t>(source: &[u8], tokens: &'t [Token]) -> Result<&'t [Token], ReadFault>
    ensures { Agrees (λ x. x.now) result (after_group source.now 0 tokens.now) }
{
    let mut depth: usize = 0;
    for (i, token) in tokens.iter().enumerate() {
        if is_kind(token.kind, TokenKind::Open) {
            depth += 1;
        } else if is_kind(token.kind, TokenKind::Close) {
            if depth == 0 {
                let (_, rest) = tokens.split_at(i + 1);
                return Ok(rest);
            }
            depth -= 1;
        }
    }
    Err(ReadFault::Syntax(source.len()))
}

/// Skips a group: tokens with balanced braces, inside a pair of braces.
#[tactic(auto, unfolding(crate::specs::aids::Reading::group_at))]
pub fn group_at<'t>(source: &[u8], tokens: &'t [Token]) -> Result<&'t [Token], ReadFault>
    ensures { Agrees (λ x. x.now) result (group_at source.now tokens.now) }
{
    let tokens = mark_at(source, TokenKind::Open, tokens)?;
    after_group(source, tokens)
}

/// Skips an optional group. Returns whether the group contains a token.
#[tactic(auto, unfolding(crate::specs::aids::Reading::filled_at))]
pub fn filled_at<'t>(source: &[u8], tokens: &'t [Token]) -> Result<(bool, &'t [Token]), ReadFault>
    ensures { Agrees (λ x. (x.0, x.1.now)) result (filled_at source.now tokens.now) }
{
    let Some(inside) = after_mark(TokenKind::Open, tokens) else {
        return Ok((false, tokens));
    };
    if let Some(rest) = after_mark(TokenKind::Close, inside) {
        return Ok((false, rest));
    }
    let rest = after_group(source, inside)?;
    Ok((true, rest))
}
