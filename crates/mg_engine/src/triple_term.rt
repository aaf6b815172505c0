/// A term in a topology triple (RFC 3525, section 7.1.18).
#[derive(Clone, Copy, Debug, PartialEq, Eq)]
pub enum TripleTerm {
    /// `*`: each member of the context.
    Every,
    /// A termination, named by its number.
    Number(u32),
    /// `ROOT`, or a `$` that doesn't denote a termination: neither is allowed in a triple.
    Barred,
    /// A name that no termination has.
    Stranger,
}
