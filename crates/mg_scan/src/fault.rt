/// Why a source has no more tokens.
#[derive(Clone, Copy, Debug, PartialEq, Eq)]
pub enum ScanFault {
    /// A byte can't start a token, or a session description contains a zero byte.
    BadByte,
    /// A line or the source ends inside quoted text.
    OpenQuote,
    /// The source ends inside a session description that contains no zero byte.
    OpenOctets,
}
