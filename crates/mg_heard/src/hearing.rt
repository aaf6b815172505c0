ghost use Rattle.std.specs.Prelude.{◌≡◌, ◌≢◌, ℕ, [], List, Err, IfErr, IfOk, Option};
ghost use Rattle.mg_core.specs.Follow.{HasRun, IsFollowed};
ghost use Rattle.mg_core.specs.Note.{Note, events_in};
ghost use Rattle.mg_core.specs.World.{World};
ghost use Rattle.mg_core.specs.aids.Resume.{FindsBadLine};
ghost use Rattle.mg_core.specs.aids.Stands.{StandsFor};
ghost use Rattle.mg_core.specs.declared.fault.RunFault.{RunFault};
ghost use Rattle.mg_core.specs.declared.fault.RunFault.TheVariants as runs;
ghost use Rattle.mg_core.specs.declared.state.CoreState.{CoreState};
ghost use Rattle.mg_heard.specs.Told.{TellsAll};
ghost use Rattle.mg_heard.specs.aids.Calling.{AreMissing, IsNew};
ghost use Rattle.mg_heard.specs.aids.Keeping.{KeepsHeard};
ghost use Rattle.mg_heard.specs.declared.party_name.PartyName.{PartyName};

use crate::attended::Attended;
use crate::clock_fault::ClockFault;
use crate::extent::Extent;
use crate::heard::Heard;
use crate::heard_fault::HeardFault;
use crate::missing::Missing;
use crate::roll::{Roll, call_all, missing_in};
use crate::sink::Sink;
use mg_core::{Core, RunFault, resume_from};
use std::alloc::Global;
use std::io::Read;

/// Runs a script on a gateway in this state, and reports to a sink who could hear whom, as a series of intervals.
/// Returns the sink, the time that the script covers, and who is missing. `roll` must be new.
///
/// Ticks are counted from the script's beginning: if a flow is open before the first tick, its interval begins with
/// tick 0. An interval is reported when it ends or when the script ends, so the memory needed does not grow with the
/// script. No packets are sent.
pub fn hear<R: Read, S: Sink>(
    alloc: Global,
    core: Core,
    reader: &mut R,
    sink: S,
    roll: Roll,
) -> Result<(S, Extent, Missing), HeardFault>
where
    S: Drop,
    ensures told { (base : World) (talker listener : Option (List PartyName)) → StandsFor core.state base →
        S.told sink sink [] → IsNew talker listener roll → IfOk result (λ heard. (state : CoreState) ×
        IsFollowed base (R.remaining reader.old) (R.remaining reader.new) state
        (λ notes. AreMissing base (events_in notes) talker listener heard.2
        × TellsAll base notes (λ extent xs. S.told sink heard.0 xs × (heard.1 ≡ extent)))) }
    ensures script { (base : World) (number : ℕ) → StandsFor core.state base →
        result ≡ Err (HeardFault.Run (runs.Script number)) →
        FindsBadLine (R.remaining reader.old) (R.remaining reader.new) number }
    ensures good { result ≢ Err (HeardFault.Run runs.BadConfig) }
{
    let Ok(follower) = Heard::new(alloc, sink) else {
        return Err(HeardFault::NoMemory);
    };
    let Ok(mut rolls) = Vec::from_array(alloc, [roll]) else {
        return Err(HeardFault::NoMemory);
    };
    call_all(&mut rolls, &core);
    let mut attended = Attended { follower, rolls };
    match resume_from(alloc, core, reader, &mut attended) {
        Ok(core) => {
            let missing = missing_in(attended.rolls.as_slice());
            let (sink, extent) = finish(attended.follower, &core)?;
            Ok((sink, extent, missing))
        }
        Err(fault) => Err(fault_of(fault, attended.follower.fault)),
    }
}

/// Reports the last intervals. Returns the sink, and the time that the script covers.
fn finish<S: Sink>(mut heard: Heard<S>, core: &Core) -> Result<(S, Extent), HeardFault>
where
    S: Drop,
    ensures value { (start : S) (base : World) (notes : List Note) → HasRun base notes core.now.state →
        KeepsHeard base notes heard.clock heard.is_changed heard.open (S.told start heard.sink) →
        IfOk result (λ ended. TellsAll base notes (λ extent xs. S.told start ended.0 xs × (ended.1 ≡ extent))) }
    ensures stops { IfErr result (λ fault. fault ≡ HeardFault.Stopped) }
{
    match heard.finish(core) {
        Ok(_) => {
            let extent = heard.clock.extent();
            Ok((heard.sink, extent))
        }
        Err(_) => Err(HeardFault::Stopped),
    }
}

/// Returns the reason why a script was not run to its end, given the fault of the run and, if the follower stopped by
/// itself, the reason for that.
pub(crate) fn fault_of(fault: RunFault, stopped: Option<ClockFault>) -> HeardFault
    ensures run { (run : RunFault) → result ≡ HeardFault.Run run → fault ≡ run }
{
    match (fault, stopped) {
        (RunFault::Write, Some(clock)) => HeardFault::Clock(clock),
        (RunFault::Write, None) => HeardFault::Stopped,
        _ => HeardFault::Run(fault),
    }
}
