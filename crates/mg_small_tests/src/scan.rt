//! Tests of the scanner.

use mg_scan::{ScanFault, Scanner, TokenKind};

/// The result of a scanner: a token of this kind with this text, a fault, or the end.
#[derive(Clone, Copy)]
enum Found<'a> {
    Token(TokenKind, &'a [u8]),
    Fault(ScanFault),
    End,
}

/// Part of a message with short keywords, a comment and a quoted string.
const SHORT: &[u8] = b"!/1 [127.0.0.1]:2945 ; hello\n\tt = 1 { c = - { av = \"a b\", } }";

/// The cases: each text with its tokens and faults, in order.
const CASES: [(&[u8], &[Found<'static>]); 11] = [
    (
        SHORT,
        &[
            Found::Token(TokenKind::Word, b"!/1"),
            Found::Token(TokenKind::Word, b"[127.0.0.1]:2945"),
            Found::Token(TokenKind::Word, b"t"),
            Found::Token(TokenKind::Equals, b"="),
            Found::Token(TokenKind::Word, b"1"),
            Found::Token(TokenKind::Open, b"{"),
            Found::Token(TokenKind::Word, b"c"),
            Found::Token(TokenKind::Equals, b"="),
            Found::Token(TokenKind::Word, b"-"),
            Found::Token(TokenKind::Open, b"{"),
            Found::Token(TokenKind::Word, b"av"),
            Found::Token(TokenKind::Equals, b"="),
            Found::Token(TokenKind::Quoted, b"a b"),
            Found::Token(TokenKind::Comma, b","),
            Found::Token(TokenKind::Close, b"}"),
            Found::Token(TokenKind::Close, b"}"),
            Found::End,
            Found::End,
        ],
    ),
    // A fault is reported once, and no token follows.
    (b"\x7f", &[Found::Fault(ScanFault::BadByte), Found::End]),
    (b"\"a", &[Found::Fault(ScanFault::OpenQuote), Found::End]),
    (
        b"\"a\rb\"",
        &[Found::Fault(ScanFault::OpenQuote), Found::End],
    ),
    (
        b"LOCAL {",
        &[
            Found::Token(TokenKind::Word, b"LOCAL"),
            Found::Fault(ScanFault::OpenOctets),
            Found::End,
        ],
    ),
    // A session description is one token.
    (
        b"Local{a\\}b}",
        &[
            Found::Token(TokenKind::Word, b"Local"),
            Found::Token(TokenKind::Octets, b"a\\}b"),
            Found::End,
        ],
    ),
    (
        b"r { {\"; } ",
        &[
            Found::Token(TokenKind::Word, b"r"),
            Found::Token(TokenKind::Octets, b" {\"; "),
            Found::End,
        ],
    ),
    (
        b"l{a\\\\}b}",
        &[
            Found::Token(TokenKind::Word, b"l"),
            Found::Token(TokenKind::Octets, b"a\\\\}b"),
            Found::End,
        ],
    ),
    (
        b"REMOTE{}",
        &[
            Found::Token(TokenKind::Word, b"REMOTE"),
            Found::Token(TokenKind::Octets, b""),
            Found::End,
        ],
    ),
    // A session description must not contain a zero byte.
    (
        b"Local{a\0}",
        &[
            Found::Token(TokenKind::Word, b"Local"),
            Found::Fault(ScanFault::BadByte),
        ],
    ),
    (
        b"Local{a\0",
        &[
            Found::Token(TokenKind::Word, b"Local"),
            Found::Fault(ScanFault::BadByte),
        ],
    ),
];

/// Returns whether the next result of a scanner is as wanted.
fn gives(scanner: &mut Scanner<'_>, text: &[u8], wanted: Found<'_>) -> bool {
    match (scanner.next(), wanted) {
        (Some(Ok(token)), Found::Token(kind, part)) => {
            token.kind == kind && token.span.text(text) == part
        }
        (Some(Err(fault)), Found::Fault(wanted)) => fault == wanted,
        (None, Found::End) => true,
        _ => false,
    }
}

/// Returns the number of the first result that is not as wanted, or `None` if there is no such result.
fn first_wrong(text: &[u8], wanted: &[Found<'_>]) -> Option<usize> {
    let mut scanner = Scanner::new(text);
    for at in 0..wanted.len() {
        if !gives(&mut scanner, text, wanted[at]) {
            return Some(at);
        }
    }
    None
}

#[test]
fn gives_tokens_and_faults(rt: HostRuntime) {
    for (text, wanted) in &CASES {
        assert!(rt; first_wrong(text, wanted).is_none());
    }
}
