ghost use Rattle.std.specs.Prelude.{◌≡◌, ◌++◌, ℕ, Bool, List, Some, Ok, false};
ghost use Rattle.mg_scan.specs.Tokens.{TokenAndRest, first_token};
ghost use Rattle.mg_scan.specs.aids.Spelled.{spelled};
ghost use Rattle.mg_scan.specs.aids.White.{IsWhite};
ghost use Rattle.mg_scan.specs.Scanner.{IsStep};

use crate::bytes::white_len;
use crate::fault::ScanFault;
use crate::first::{names_octets, token_after};
use crate::span::Span;
use crate::token::Token;
use std::marker::Model;

/// Scans a source token by token.
#[derive(Drop)]
pub struct Scanner<'a> {
    source: &'a [u8],
    at: usize,
    named: bool,
}

impl<'a> Model for Scanner<'a> {
    ghost use Rattle.std.specs.Prelude.{◌≤◌, length};
    ghost use Rattle.mg_scan.specs.Scanner.{Scanning};

    ghost Value = { Scanning };

    ghost view = { λ s. record { source = s.source.now; at = s.at; named = s.named } };

    ghost invariant = { λ s. s.at ≤ length s.source.now };
}

impl<'a> Scanner<'a> {
    /// Creates a scanner at the start of a source.
    pub fn new(source: &'a [u8]) -> Self
        ensures start { result ≡ record { source = source.now; at = 0; named = false } }
    {
        Scanner {
            source,
            at: 0,
            named: false,
        }
    }

    /// Returns the next token or a fault. Returns `None` at the end of the source and after a fault.
    pub fn next(&mut self) -> Option<Result<Token, ScanFault>>
        ensures source { self.new.source ≡ self.old.source }
        ensures answer { IsStep self.old result self.new }
    {
        let rest = &self.source[self.at..];
        let start = self.at + white_len(rest);
        match token_after(self.named, &self.source[start..]) {
            Some(Ok(found)) => {
                let span = Span {
                    start: start + found.start,
                    end: start + found.end,
                };
                self.named = names_octets(found.kind, &self.source[span.start..span.end]);
                self.at = start + found.next;
                Some(Ok(Token {
                    kind: found.kind,
                    span,
                }))
            }
            Some(Err(fault)) => {
                self.at = self.source.len();
                Some(Err(fault))
            }
            None => {
                self.at = self.source.len();
                None
            }
        }
    }
}

/// If a first token is found, the bytes consist of white space, the token's spelling, and the rest.
pub fn parts_join()
    ensures { (named : Bool) (bytes : List ℕ) (x : TokenAndRest) → first_token named bytes ≡ Some (Ok x) →
        (white : List ℕ) × IsWhite false white × (bytes ≡ white ++ (spelled x.piece.kind x.piece.text ++ x.rest)) }
{}
