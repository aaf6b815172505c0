use crate::kind::TokenKind;

/// A token at the start of some bytes: where its text starts and ends, and where the bytes after it start.
#[derive(Clone, Copy)]
pub struct Found {
    pub kind: TokenKind,
    pub start: usize,
    pub end: usize,
    pub next: usize,
}

impl Found {
    ghost use Rattle.std.specs.Prelude.{◌≡◌};

    /// Returns a mark of this kind, which is one byte long.
    pub fn mark(kind: TokenKind) -> Self
        ensures { result ≡ record { kind = kind; start = 0; end = 1; next = 1 } }
    {
        Found {
            kind,
            start: 0,
            end: 1,
            next: 1,
        }
    }
}
