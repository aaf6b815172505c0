ghost use Rattle.std.specs.Prelude.{◌≡◌, ◌≢◌, Err, true};
ghost use Rattle.std.specs.Io.KnownBytes.{Keeps};
ghost use Rattle.mg_core.specs.declared.fault.RunFault.{RunFault};
ghost use Rattle.mg_engine.specs.Config.{IsValidConfig};
ghost use Rattle.mg_hearing.specs.Resumed.{BeginsWithCheckpoint};
ghost use Rattle.mg_program.specs.Replay.{Replays};
ghost use Rattle.mg_program.specs.Status.{status_of};

use crate::status::{status_after, status_of};
use mg_checkpoint::RestoreFault;
use mg_core::{Config, Counts, RunFault, Shown, run, run_from};
use mg_hearing::{LookAhead, ResumeFault, begins_with_checkpoint, resume};
use mg_host::{Environment, Outside, System};
use mg_options::Status;
use std::io::Write;

/// Returns the outcome of a run that had this outcome behind some lines of the input: a fault's line is counted from
/// the first line of the input.
#[tactic(auto, unfolding(crate::specs::Status::status_of))]
fn behind(outcome: Result<Counts, RunFault>, lines: u64) -> Result<Counts, RunFault>
    ensures status { status_of result ≡ status_of outcome }
{
    match outcome {
        Err(RunFault::Script(line)) => Err(RunFault::Script(line.saturating_add(lines))),
        _ => outcome,
    }
}

/// Returns the fault of a run whose gateway could not go on from the checkpoint of its input.
fn fault_of(fault: ResumeFault) -> RunFault
    ensures good { result ≢ RunFault.BadConfig }
{
    match fault {
        ResumeFault::OtherGateway => RunFault::Script(1),
        ResumeFault::Checkpoint(
            RestoreFault::BadLine(line) | RestoreFault::Refused(line) | RestoreFault::Differs(line),
        ) => RunFault::Script(line),
        ResumeFault::Checkpoint(_) => RunFault::Script(1),
        ResumeFault::Read => RunFault::Read,
        ResumeFault::NoMemory => RunFault::NoMemory,
    }
}

/// Reports why no gateway goes on from the checkpoint of an input. Returns the exit status.
fn report_unresumed<E: Write>(fault: ResumeFault, errors: &mut E) -> Status
    ensures status { (fault : RunFault) × (fault ≢ RunFault.BadConfig) × (result ≡ status_of (Err fault)) }
{
    let _ = writeln!(errors, "{fault}");
    status_of(&Err(fault_of(fault)))
}

/// Returns whether the input begins with a title and a checkpoint. If the configuration is invalid, nothing is read.
fn is_renewed<R: LookAhead>(config: Config, input: &mut R) -> bool
    ensures unread { Keeps (R.remaining input.old) (R.remaining input.new) }
    ensures valid { result ≡ true → IsValidConfig config }
    ensures begins { result ≡ true → BeginsWithCheckpoint (R.remaining input.new) }
{
    if !config.is_sound() {
        return false;
    }
    begins_with_checkpoint(input)
}

/// Runs the script behind the checkpoint in the input, as [`replay`] does.
fn replay_behind<E: Environment>(
    system: &System<'_, E>,
    outside: &mut Outside<E>,
    config: Config,
    shown: Shown,
) -> Status
    requires valid { IsValidConfig config }
    requires begins { BeginsWithCheckpoint (E.Input.remaining outside.old.input) }
    ensures value { Replays config shown (E.Input.remaining outside.old.input) (E.Input.remaining outside.new.input)
        (E.Output.contents outside.old.output) (E.Output.contents outside.new.output) result }
    ensures quiet { result ≡ Status.Done → outside.new.errors ≡ outside.old.errors }
    ensures host { outside.new.host ≡ outside.old.host }
{
    let resumed = match resume(system.alloc, config, &mut outside.input) {
        Ok(resumed) => resumed,
        Err(fault) => return report_unresumed(fault, &mut outside.errors),
    };
    let outcome = run_from(
        system.alloc,
        resumed.core,
        shown,
        &mut outside.input,
        &mut outside.output,
    );
    let outcome = behind(outcome, resumed.lines);
    status_after(&outcome, &config, &mut outside.errors)
}

/// Runs the script in the input on a new gateway or, if the input begins with a title and a checkpoint, on a gateway
/// that goes on from there. Writes a line for each answer and each packet and, if `shown` asks for them, comments about
/// changes. A fault is reported to `errors`.
pub fn replay<E: Environment>(
    system: &System<'_, E>,
    outside: &mut Outside<E>,
    config: Config,
    shown: Shown,
) -> Status
where
    E::Input: LookAhead,
    ensures value { Replays config shown (E.Input.remaining outside.old.input) (E.Input.remaining outside.new.input)
        (E.Output.contents outside.old.output) (E.Output.contents outside.new.output) result }
    ensures quiet { result ≡ Status.Done → outside.new.errors ≡ outside.old.errors }
    ensures host { outside.new.host ≡ outside.old.host }
{
    if is_renewed(config, &mut outside.input) {
        return replay_behind(system, outside, config, shown);
    }
    let outcome = run(
        system.alloc,
        config,
        shown,
        &mut outside.input,
        &mut outside.output,
    );
    status_after(&outcome, &config, &mut outside.errors)
}
