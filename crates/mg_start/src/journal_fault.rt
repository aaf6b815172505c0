ghost use Rattle.std.specs.Prelude.{◌≡◌, ◌⊎◌};

use mg_options::Status;
use mg_service::{ConfigFault, FilePath};
use std::io::{self, Write};
use thiserror::Error;

/// The reason why a gateway can't start with its journal.
#[derive(Drop, Debug, Error)]
pub enum JournalFault {
    #[error("cannot be opened: {0}")]
    Open(io::Error),
    #[error("in use by another gateway")]
    InUse,
    #[error("cannot be read: {0}")]
    Read(io::Error),
    #[error("line 1 isn't the title of a journal")]
    NoTitle,
    #[error("line 1 has a bad configuration: {0}")]
    BadConfig(ConfigFault),
    #[error("line 1 has another {0}")]
    Differs(&'static str),
    #[error("line {0} isn't a line of a checkpoint")]
    BadCheckpoint(u64),
    #[error("line {0} isn't a line of a script")]
    BadLine(u64),
    #[error("line {0} is a wrong seal: a line before it was changed")]
    Changed(u64),
    #[error("cannot be written: {0}")]
    Write(io::Error),
    #[error("out of memory")]
    NoMemory,
}

impl JournalFault {
    /// Reports the fault. Returns the program's exit status, which says whether another start can succeed although
    /// nobody has changed the file.
    pub fn report<E: Write>(&self, path: &FilePath, errors: &mut E) -> Status
        ensures ends { (result ≡ Status.Failed) ⊎ (result ≡ Status.NoMemory) ⊎ (result ≡ Status.BadJournal) }
    {
        let path = path.as_str();
        let _ = writeln!(errors, "journal {path}: {self}");
        match self {
            JournalFault::Open(_)
            | JournalFault::Read(_)
            | JournalFault::Write(_)
            | JournalFault::InUse => Status::Failed,
            JournalFault::NoMemory => Status::NoMemory,
            JournalFault::NoTitle
            | JournalFault::BadConfig(_)
            | JournalFault::Differs(_)
            | JournalFault::BadCheckpoint(_)
            | JournalFault::BadLine(_)
            | JournalFault::Changed(_) => Status::BadJournal,
        }
    }
}
