/// Why the content of a Local or Remote was rejected.
#[derive(Clone, Copy, Debug, PartialEq, Eq)]
pub enum SdpFault {
    /// A line doesn't consist of a letter, `=` and a value (RFC 4566, section 5).
    Line,
    /// There are more than eight alternatives, and each line is well-formed.
    TooMany,
}
