use std::io::ErrorKind;

/// The effect of an injected fault.
#[derive(Clone, Copy, Debug, PartialEq, Eq)]
pub enum FaultEffect {
    /// The call fails.
    Fail(ErrorKind),
    /// A write or a read stops after this many bytes. A read that isn't at the end reads at least one byte.
    Stop(usize),
}
