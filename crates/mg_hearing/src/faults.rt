ghost use Rattle.std.specs.Prelude.{◌≡◌, ◌⊎◌, MatchResult};

use crate::script_fault::ScriptFault;
use mg_checkpoint::RestoreFault;
use mg_core::RunFault;
use mg_heard::HeardFault;
use mg_options::Status;
use std::io::{ErrorKind, Write};

/// The name of standard input in messages.
pub(crate) const INPUT: &str = "standard input";

/// Returns the exit status after a fault.
fn status_of(fault: &ScriptFault) -> Status
    ensures ends { (result ≡ Status.Failed) ⊎ (result ≡ Status.NoMemory) ⊎ (result ≡ Status.BadJournal) }
{
    match fault {
        ScriptFault::Unreadable(error) => match error.kind() {
            ErrorKind::OutOfMemory => Status::NoMemory,
            _ => Status::Failed,
        },
        ScriptFault::NoTitle => Status::BadJournal,
        ScriptFault::Heard(HeardFault::Run(RunFault::Read)) => Status::Failed,
        ScriptFault::Heard(HeardFault::Run(RunFault::NoMemory)) => Status::NoMemory,
        ScriptFault::Heard(HeardFault::Run(_)) => Status::BadJournal,
        ScriptFault::Heard(HeardFault::Clock(_)) => Status::BadJournal,
        ScriptFault::Heard(HeardFault::Stopped) => Status::Failed,
        ScriptFault::Heard(HeardFault::NoMemory) => Status::NoMemory,
        ScriptFault::Checkpoint(RestoreFault::NoMemory) => Status::NoMemory,
        ScriptFault::Checkpoint(_) => Status::BadJournal,
    }
}

/// Reports a fault of the script with this name, or of the output. Returns the exit status.
pub(crate) fn report_fault<E: Write>(name: &str, fault: &ScriptFault, errors: &mut E) -> Status
    ensures ends { (result ≡ Status.Failed) ⊎ (result ≡ Status.NoMemory) ⊎ (result ≡ Status.BadJournal) }
{
    match fault {
        ScriptFault::Heard(HeardFault::Stopped) => {
            let _ = writeln!(errors, "write failed");
        }
        _ => {
            let _ = writeln!(errors, "{name}: {fault}");
        }
    }
    status_of(fault)
}

/// Returns the exit status of an answer about the script with this name. If there is a fault instead, reports it, and
/// returns its exit status.
pub(crate) fn status_or_report<E: Write>(
    name: &str,
    answer: Result<Status, ScriptFault>,
    errors: &mut E,
) -> Status
    ensures value { MatchResult answer (λ status. (result ≡ status) × (errors.new ≡ errors.old)) (λ _.
        (result ≡ Status.Failed) ⊎ (result ≡ Status.NoMemory) ⊎ (result ≡ Status.BadJournal)) }
{
    match answer {
        Ok(status) => status,
        Err(fault) => report_fault(name, &fault, errors),
    }
}
