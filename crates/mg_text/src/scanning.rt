ghost use Rattle.std.specs.Prelude.{◌≡◌, [], ◌∷◌, ◌++◌, IfOk};
ghost use Rattle.mg_text.specs.Message.{AreTokens};

use mg_scan::{ScanFault, Scanner, Span, Token, TokenKind};
use std::alloc::{AllocError, Global};

/// Scans all tokens of a source, up to its end or a fault.
pub fn tokens_of(
    alloc: Global,
    source: &[u8],
) -> Result<(Vec<Token>, Option<ScanFault>), AllocError>
    ensures { IfOk result (λ r. AreTokens source.now r.0.items r.1) }
{
    let mut scanner = Scanner::new(source);
    let mut tokens = Vec::with_capacity(alloc, source.len() / 3 + 8)?;
    loop {
        match scanner.next() {
            Some(Ok(token)) => put(&mut tokens, token.kind, token.span.start, token.span.end)?,
            Some(Err(fault)) => return Ok((tokens, Some(fault))),
            None => return Ok((tokens, None)),
        }
    }
}

/// Appends a token, passed as separate parts in registers.
///
/// A whole token would be written to the stack and read back in differently sized pieces, which stalls the processor.
#[inline(never)]
fn put(tokens: &mut Vec<Token>, kind: TokenKind, start: usize, end: usize) -> Result<(), AllocError>
    ensures items { IfOk result (λ _.
        tokens.new.items
        ≡ tokens.old.items ++ record { kind = kind; span = record { start = start; end = end } } ∷ []) }
{
    tokens.push(Token {
        kind,
        span: Span { start, end },
    })?;
    Ok(())
}
