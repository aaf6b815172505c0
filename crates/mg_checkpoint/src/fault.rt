use mg_engine::StartFault;
use std::alloc::{AllocError, AllocFailed};
use thiserror::Error;

/// The reason why no gateway was restored. Lines are counted from 1.
#[derive(Clone, Copy, Debug, PartialEq, Eq, Error)]
pub enum RestoreFault {
    /// A line that no checkpoint can contain.
    #[error("line {0}: bad checkpoint line")]
    BadLine(u64),
    /// A line that the other lines or the configuration don't allow.
    #[error("line {0}: contradicts other lines or the configuration")]
    Refused(u64),
    /// The first line that differs from the checkpoint of the gateway that the text describes.
    #[error("line {0}: not as the restored gateway would save it")]
    Differs(u64),
    #[error("bad configuration")]
    BadConfig,
    #[error("out of memory")]
    NoMemory,
}

impl From<AllocError> for RestoreFault {
    fn from(_: AllocError) -> Self {
        RestoreFault::NoMemory
    }
}

impl<T: Drop> From<AllocFailed<T>> for RestoreFault {
    fn from(_: AllocFailed<T>) -> Self {
        RestoreFault::NoMemory
    }
}

impl From<StartFault> for RestoreFault {
    fn from(fault: StartFault) -> Self {
        match fault {
            StartFault::BadConfig => RestoreFault::BadConfig,
            StartFault::NoMemory => RestoreFault::NoMemory,
        }
    }
}
