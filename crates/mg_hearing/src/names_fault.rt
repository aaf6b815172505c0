ghost use Rattle.std.specs.Prelude.{◌≡◌, ◌⊎◌};

use mg_options::Status;
use thiserror::Error;

/// The reason why a file of names can't be used.
#[derive(Clone, Copy, Debug, PartialEq, Eq, Error)]
pub(crate) enum NamesFault {
    #[error("cannot be read")]
    Read,
    #[error("line {0}: not two columns: RTP/1 or an IPv4 address with or without a port; and a name of 1 to 64 bytes of UTF-8 without quotes")]
    BadLine(u64),
    #[error("more than 1024 lines")]
    TooMany,
    #[error("out of memory")]
    NoMemory,
}

impl NamesFault {
    /// Returns the exit status.
    pub(crate) fn status(self) -> Status
        ensures ends { (result ≡ Status.Failed) ⊎ (result ≡ Status.NoMemory) ⊎ (result ≡ Status.BadJournal) }
    {
        match self {
            NamesFault::Read => Status::Failed,
            NamesFault::BadLine(_) => Status::BadJournal,
            NamesFault::TooMany => Status::BadJournal,
            NamesFault::NoMemory => Status::NoMemory,
        }
    }
}
