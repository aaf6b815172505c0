use mg_words::Mode;

/// What a reply reports about a stream's LocalControl descriptor (RFC 3525, section 7.1.7).
#[derive(Clone, Copy, Debug, PartialEq, Eq)]
pub struct Control {
    /// The mode of the stream.
    pub mode: Mode,
    /// The depth of the play list, in frames of 20 ms. It is written in milliseconds (`nt/jit`, RFC 3525, annex
    /// E.11.1).
    pub depth: u8,
}
