/// One of the two companding laws of ITU-T G.711.
///
/// Each has a static payload type in RTP (RFC 3551, section 6) and 8000 samples per second.
#[derive(Clone, Copy, Debug, PartialEq, Eq, Hash)]
pub enum Law {
    /// Mu-law: PCMU, payload type 0.
    Mu,
    /// A-law: PCMA, payload type 8.
    A,
}
