use std::alloc::AllocError;
use std::io;
use thiserror::Error;

/// The reason why files can't be read as one script. Files are counted from 0.
#[derive(Drop, Debug, Error)]
pub enum JoinFault {
    #[error("cannot be opened: {1}")]
    Open(usize, io::Error),
    #[error("cannot be read: {1}")]
    Read(usize, io::Error),
    /// This file has no line that says what it follows, or begins with another title than the first file.
    #[error("doesn't follow the file before it")]
    Apart(usize),
    #[error("out of memory")]
    NoMemory,
}

impl From<AllocError> for JoinFault {
    fn from(_: AllocError) -> Self {
        JoinFault::NoMemory
    }
}
