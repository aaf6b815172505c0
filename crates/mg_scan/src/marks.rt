ghost use Rattle.std.specs.Prelude.{◌≡◌, Some, None, MatchOption};
ghost use Rattle.mg_scan.specs.aids.Marks.{after_mark, is_kind};

use crate::kind::TokenKind;
use crate::token::Token;

/// Returns whether two kinds are the same.
pub fn is_kind(a: TokenKind, b: TokenKind) -> bool
    ensures value { result ≡ is_kind a b }
{
    a == b
}

/// Skips a mark, or returns `None` if the tokens don't start with it.
#[tactic(auto, unfolding(crate::specs::aids::Marks::after_mark))]
pub fn after_mark(kind: TokenKind, tokens: &[Token]) -> Option<&[Token]>
    ensures { MatchOption result (after_mark kind tokens.now ≡ None) (λ x. after_mark kind tokens.now ≡ Some x.now) }
{
    match tokens {
        [first, rest @ ..] if is_kind(first.kind, kind) => Some(rest),
        _ => None,
    }
}
