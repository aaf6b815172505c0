use std::io;
use std::os::fd::RawFd;
use thiserror::Error;

/// The reason why an outlet couldn't be created.
#[derive(Debug, Drop, Error)]
pub enum OutletFault {
    /// The system can't report when the descriptor is writable; `error` gives the reason. The descriptor may be closed.
    #[error("cannot watch file descriptor {descriptor}: {error}")]
    Watch { descriptor: RawFd, error: io::Error },
    /// There is no memory for a queue of this many bytes.
    #[error("no memory for {limit} bytes of output")]
    Memory { limit: usize },
}
