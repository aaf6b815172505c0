use mg_checkpoint::RestoreFault;
use mg_core::RunFault;
use mg_heard::{ClockFault, HeardFault};
use std::io;
use thiserror::Error;

/// The reason why a script was not run to its end. Lines are counted from 1.
#[derive(Drop, Debug, Error)]
pub(crate) enum ScriptFault {
    #[error("cannot be read: {0}")]
    Unreadable(io::Error),
    #[error("line 1 isn't the title of a journal or a recording")]
    NoTitle,
    #[error("{0}")]
    Heard(HeardFault),
    /// The script begins with a checkpoint from which no gateway was restored.
    #[error("{0}")]
    Checkpoint(RestoreFault),
}

impl From<HeardFault> for ScriptFault {
    fn from(fault: HeardFault) -> Self {
        ScriptFault::Heard(fault)
    }
}

/// Returns the number of the line that a fault is about, if any.
fn heard_line(fault: HeardFault) -> Option<u64> {
    match fault {
        HeardFault::Run(RunFault::Script(line)) => Some(line),
        HeardFault::Clock(ClockFault::OtherGateway(line)) => Some(line),
        _ => None,
    }
}

/// Returns a fault with another number of its line, if it is about a line.
fn heard_at(fault: HeardFault, line: u64) -> HeardFault {
    match fault {
        HeardFault::Run(RunFault::Script(_)) => HeardFault::Run(RunFault::Script(line)),
        HeardFault::Clock(ClockFault::OtherGateway(_)) => {
            HeardFault::Clock(ClockFault::OtherGateway(line))
        }
        _ => fault,
    }
}

/// Returns the number of the line that a fault is about, if any.
pub(crate) fn restoring_line(fault: RestoreFault) -> Option<u64> {
    match fault {
        RestoreFault::BadLine(line) | RestoreFault::Refused(line) | RestoreFault::Differs(line) => {
            Some(line)
        }
        RestoreFault::BadConfig | RestoreFault::NoMemory => None,
    }
}

/// Returns a fault with another number of its line, if it is about a line.
pub(crate) fn restoring_at(fault: RestoreFault, line: u64) -> RestoreFault {
    match fault {
        RestoreFault::BadLine(_) => RestoreFault::BadLine(line),
        RestoreFault::Refused(_) => RestoreFault::Refused(line),
        RestoreFault::Differs(_) => RestoreFault::Differs(line),
        RestoreFault::BadConfig | RestoreFault::NoMemory => fault,
    }
}

impl ScriptFault {
    /// Returns the number of the line that the fault is about, if any.
    pub(crate) fn line(&self) -> Option<u64> {
        match self {
            ScriptFault::Unreadable(_) => None,
            ScriptFault::NoTitle => None,
            ScriptFault::Heard(fault) => heard_line(*fault),
            ScriptFault::Checkpoint(fault) => restoring_line(*fault),
        }
    }

    /// Returns the fault with another number of its line, if it is about a line.
    pub(crate) fn at_line(self, line: u64) -> Self {
        match self {
            ScriptFault::Unreadable(_) | ScriptFault::NoTitle => self,
            ScriptFault::Heard(fault) => ScriptFault::Heard(heard_at(fault, line)),
            ScriptFault::Checkpoint(fault) => ScriptFault::Checkpoint(restoring_at(fault, line)),
        }
    }

    /// Returns the fault with its line counted from the first line of the whole script. This many lines precede the part
    /// that is run. The title precedes a checkpoint.
    pub(crate) fn behind(self, lines: u64) -> Self {
        let before = match &self {
            ScriptFault::Checkpoint(_) => 1,
            _ => lines,
        };
        match self.line() {
            Some(line) => self.at_line(line.saturating_add(before)),
            None => self,
        }
    }
}
