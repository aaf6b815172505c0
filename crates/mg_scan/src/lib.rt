//! The scanner for control messages in text encoding (Megaco, RFC 3525, Annex B).
//!
//! A message is a sequence of words, marks, quoted strings and session descriptions, between which there may be white
//! space and comments. [`Scanner`] returns its tokens one by one, in one pass, and does not allocate:
//!
//! ```rust
//! let mut scanner = Scanner::new(b"Context = - ; the null context");
//! assert_eq!(rt; scanner.next(), Some(Ok(Token { kind: TokenKind::Word, span: Span { start: 0, end: 7 } })));
//! ```
//!
//! A token's text is the part of the source that its [`Span`] covers. After the words `Local` and `Remote` (or `L` and
//! `R`), a brace opens a session description, which is one token up to its closing brace. A [`ScanFault`] is a byte
//! that can't start a token, a zero byte in a session description, or a missing closing mark. After a fault there are
//! no more tokens.
#![tactic(auto)]

mod bytes;
mod fault;
mod first;
mod found;
mod kind;
mod marks;
mod octets;
mod scanner;
mod span;
mod token;

pub use crate::fault::ScanFault;
pub use crate::kind::TokenKind;
pub use crate::marks::{after_mark, is_kind};
pub use crate::scanner::{Scanner, parts_join};
pub use crate::span::Span;
pub use crate::token::Token;
