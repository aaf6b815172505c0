ghost use Rattle.std.specs.Prelude.{◌≡◌};
ghost use Rattle.mg_program.specs.Status.{status_of};

use mg_core::{Config, Counts, RunFault};
use mg_options::Status;
use mg_service::ConfigFault;
use std::io::Write;

/// Returns the exit status after a run.
#[tactic(auto, unfolding(crate::specs::Status::status_of))]
pub fn status_of(outcome: &Result<Counts, RunFault>) -> Status
    ensures value { result ≡ status_of outcome.now }
{
    match outcome {
        Ok(_) => Status::Done,
        Err(RunFault::Script(_)) => Status::BadLine,
        Err(RunFault::BadConfig) => Status::Usage,
        Err(RunFault::Read) => Status::Failed,
        Err(RunFault::Write) => Status::Failed,
        Err(RunFault::NoMemory) => Status::NoMemory,
    }
}

/// Reports why a run failed. For an invalid configuration, the message names the option.
fn report_fault<E: Write>(fault: &RunFault, config: &Config, errors: &mut E) {
    let _ = match ConfigFault::of(config) {
        Some(why) if *fault == RunFault::BadConfig => writeln!(errors, "{fault}: {why}"),
        _ => writeln!(errors, "{fault}"),
    };
}

/// If a run failed, reports why. Returns the exit status.
pub fn status_after<E: Write>(
    outcome: &Result<Counts, RunFault>,
    config: &Config,
    errors: &mut E,
) -> Status
    ensures value { result ≡ status_of outcome.now }
    ensures quiet { result ≡ Status.Done → errors.new ≡ errors.old }
{
    if let Err(fault) = outcome {
        report_fault(fault, config, errors);
    }
    status_of(outcome)
}
