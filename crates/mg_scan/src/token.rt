use crate::kind::TokenKind;
use crate::span::Span;

/// A token: its kind, and the span of its text.
#[derive(Clone, Copy, Debug, PartialEq, Eq)]
pub struct Token {
    pub kind: TokenKind,
    pub span: Span,
}
