use crate::stopped::Stopped;
use mg_engine::StartFault;
use mg_lines::{ReadFailed, WriteFailed};
use thiserror::Error;

/// Memory ran out while a control datagram was read. The core is unchanged, except that `Core::control` empties its
/// last answer.
#[derive(Clone, Copy, Debug, PartialEq, Eq, Error)]
#[error("out of memory")]
pub struct NoMemory;

/// The reason why the lines for an event were not written completely.
#[derive(Clone, Copy, Debug, PartialEq, Eq)]
pub enum EventFault {
    Write,
    /// Memory ran out while a control datagram was read, and the event had no effect.
    NoMemory,
}

/// The reason why a line was not run, or why its output is incomplete.
#[derive(Clone, Copy, Debug, PartialEq, Eq)]
pub enum LineFault {
    /// The line with this number, counted from 1, is not a script line.
    Bad(u64),
    /// The output can't be written, or the follower stopped.
    Write,
    NoMemory,
}

/// The reason why a script did not run to its end after the gateway had started.
#[derive(Clone, Copy, Debug, PartialEq, Eq)]
pub enum ScriptFault {
    /// The line with this number, counted from 1, is not a script line.
    Bad(u64),
    Read,
    Write,
    NoMemory,
}

/// The reason why a script did not run to its end.
#[derive(Clone, Copy, Debug, PartialEq, Eq, Error)]
pub enum RunFault {
    /// The line with this number, counted from 1, is not a script line.
    #[error("line {0}: bad script line")]
    Script(u64),
    #[error("read failed")]
    Read,
    #[error("write failed")]
    Write,
    #[error("out of memory")]
    NoMemory,
    #[error("bad configuration")]
    BadConfig,
}

impl From<WriteFailed> for EventFault {
    ghost use Rattle.std.specs.Prelude.{◌≡◌};
    ghost use Rattle.mg_core.specs.declared.fault.EventFault.TheVariants as faults;

    ghost from_gives = { λ _ e. e ≡ faults.Write };

    fn from(_failed: WriteFailed) -> Self {
        EventFault::Write
    }
}

impl From<ReadFailed> for ScriptFault {
    ghost use Rattle.std.specs.Prelude.{◌≡◌};
    ghost use Rattle.mg_core.specs.declared.fault.ScriptFault.TheVariants as faults;

    ghost from_gives = { λ _ e. e ≡ faults.Read };

    fn from(_failed: ReadFailed) -> Self {
        ScriptFault::Read
    }
}

impl From<EventFault> for LineFault {
    ghost use Rattle.std.specs.Prelude.{◌≡◌};
    ghost use Rattle.mg_core.specs.aids.Steps.{line_fault_of};

    ghost from_gives = { λ fault e. e ≡ line_fault_of fault };

    fn from(fault: EventFault) -> Self {
        match fault {
            EventFault::Write => LineFault::Write,
            EventFault::NoMemory => LineFault::NoMemory,
        }
    }
}

impl From<NoMemory> for LineFault {
    ghost use Rattle.std.specs.Prelude.{◌≡◌};
    ghost use Rattle.mg_core.specs.declared.fault.LineFault.TheVariants as faults;

    ghost from_gives = { λ _ e. e ≡ faults.NoMemory };

    fn from(_failed: NoMemory) -> Self {
        LineFault::NoMemory
    }
}

impl From<Stopped> for LineFault {
    ghost use Rattle.std.specs.Prelude.{◌≡◌};
    ghost use Rattle.mg_core.specs.declared.fault.LineFault.TheVariants as faults;

    ghost from_gives = { λ _ e. e ≡ faults.Write };

    fn from(_stopped: Stopped) -> Self {
        LineFault::Write
    }
}

impl From<LineFault> for ScriptFault {
    ghost use Rattle.std.specs.Prelude.{◌≡◌};
    ghost use Rattle.mg_core.specs.aids.Steps.{script_fault_of};

    ghost from_gives = { λ fault e. e ≡ script_fault_of fault };

    fn from(fault: LineFault) -> Self {
        match fault {
            LineFault::Bad(number) => ScriptFault::Bad(number),
            LineFault::Write => ScriptFault::Write,
            LineFault::NoMemory => ScriptFault::NoMemory,
        }
    }
}

impl From<ScriptFault> for RunFault {
    ghost use Rattle.std.specs.Prelude.{◌≡◌};
    ghost use Rattle.mg_core.specs.aids.Steps.{run_fault_of};

    ghost from_gives = { λ fault e. e ≡ run_fault_of fault };

    fn from(fault: ScriptFault) -> Self {
        match fault {
            ScriptFault::Bad(number) => RunFault::Script(number),
            ScriptFault::Read => RunFault::Read,
            ScriptFault::Write => RunFault::Write,
            ScriptFault::NoMemory => RunFault::NoMemory,
        }
    }
}

impl From<StartFault> for RunFault {
    ghost use Rattle.std.specs.Prelude.{◌≡◌};
    ghost use Rattle.mg_core.specs.aids.Steps.{run_fault_at_start};

    ghost from_gives = { λ fault e. e ≡ run_fault_at_start fault };

    fn from(fault: StartFault) -> Self {
        match fault {
            StartFault::BadConfig => RunFault::BadConfig,
            StartFault::NoMemory => RunFault::NoMemory,
        }
    }
}
