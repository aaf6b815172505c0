/// The kinds of tokens.
#[derive(Clone, Copy, Debug, PartialEq, Eq)]
pub enum TokenKind {
    /// A run of visible ASCII bytes that are not marks.
    Word,
    /// An opening brace.
    Open,
    /// A closing brace.
    Close,
    Comma,
    Equals,
    /// Text between quotation marks, on one line. Its span excludes the quotation marks.
    Quoted,
    /// The session description in braces after `Local` or `Remote`, in long or short form. Its span excludes the
    /// braces. A closing brace inside it has a backslash in front of it.
    Octets,
}
