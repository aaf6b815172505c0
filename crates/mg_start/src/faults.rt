//! The faults of a journal that is read and run.

use crate::journal_fault::JournalFault;
use mg_checkpoint::RestoreFault;
use mg_core::RunFault;
use std::io::{self, ErrorKind};

/// Returns the fault for a journal that couldn't be read.
pub(crate) fn read_fault(error: io::Error) -> JournalFault {
    match error.kind() {
        ErrorKind::OutOfMemory => JournalFault::NoMemory,
        _ => JournalFault::Read(error),
    }
}

/// Returns the fault for a journal whose script couldn't be run. This many lines precede the script.
pub(crate) fn run_fault(lines: u64, fault: RunFault) -> JournalFault {
    match fault {
        RunFault::Script(line) => JournalFault::BadLine(line.saturating_add(lines)),
        // The reader of a journal stops only if memory runs out.
        RunFault::NoMemory | RunFault::Write => JournalFault::NoMemory,
        _ => JournalFault::Read(io::Error::from(ErrorKind::Other)),
    }
}

/// Returns the fault for a journal from whose checkpoint no gateway was restored. The title precedes the checkpoint.
pub(crate) fn restore_fault(fault: RestoreFault) -> JournalFault {
    match fault {
        RestoreFault::BadLine(line) | RestoreFault::Refused(line) | RestoreFault::Differs(line) =>
            JournalFault::BadCheckpoint(line.saturating_add(1)),
        RestoreFault::BadConfig => JournalFault::NoTitle,
        RestoreFault::NoMemory => JournalFault::NoMemory,
    }
}
