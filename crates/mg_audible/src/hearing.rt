ghost use Rattle.std.specs.Prelude.{◌≡◌, [], IfOk, List};
ghost use Rattle.std.specs.List.{list_any};
ghost use Rattle.mg_core.specs.Base.{IsBase};
ghost use Rattle.mg_core.specs.Counting.{is_media};
ghost use Rattle.mg_core.specs.Follow.{HasRun, IsFollowed};
ghost use Rattle.mg_core.specs.Note.{Note, events_in};
ghost use Rattle.mg_core.specs.World.{World};
ghost use Rattle.mg_core.specs.declared.state.CoreState.{CoreState};
ghost use Rattle.mg_audible.specs.Told.{TellsAudible};
ghost use Rattle.mg_audible.specs.aids.Keeping.{AllStandFor, KeepsTimed};

use crate::audible::Audible;
use crate::gateways::Gateways;
use crate::pair::Pair;
use mg_core::{Core, RunFault, resume_from};
use mg_heard::{HeardFault, Sink};
use std::alloc::Global;
use std::io::Read;

/// Runs a script on gateways that have counted no RTP datagrams, and reports to a sink when the talker with this number
/// was audible, and to whom, as a series of intervals. Returns the sink, and whether the script has any RTP datagrams.
///
/// Ticks are counted from the script's beginning. An interval is reported when it ends or when the script ends, so the
/// memory needed does not grow with the script. Two gateways mix all packets, but send none.
pub fn hear_talker<R: Read, S: Sink>(
    alloc: Global,
    gateways: Gateways,
    reader: &mut R,
    talker: u32,
    sink: S,
) -> Result<(S, bool), HeardFault>
where
    S: Drop,
    ensures told { (base : World) → AllStandFor gateways base → IsBase base → base.tally.media ≡ 0 →
        S.told sink sink [] → IfOk result (λ heard. (state : CoreState) ×
        IsFollowed base (R.remaining reader.old) (R.remaining reader.new) state
        (λ notes. TellsAudible base talker notes (S.told sink heard.0)
        × (heard.1 ≡ list_any is_media (events_in notes)))) }
{
    let Gateways {
        script,
        whole,
        without,
    } = gateways;
    let pair = Pair {
        talker,
        whole,
        without,
    };
    let mut audible = Audible::new(alloc, pair, sink)?;
    match resume_from(alloc, script, reader, &mut audible) {
        Ok(core) => {
            let has_rtp = has_rtp(&core);
            Ok((finish(audible)?, has_rtp))
        }
        Err(fault) => Err(fault_of(fault, audible.fault)),
    }
}

/// Reports the last intervals. Returns the sink.
fn finish<S: Sink>(mut audible: Audible<S>) -> Result<S, HeardFault>
where
    S: Drop,
    ensures value { (start : S) (base : World) (notes : List Note) → IsBase base →
        KeepsTimed base audible.pair.talker notes audible.pair.whole.state audible.pair.without.state
        audible.clock audible.open (S.told start audible.sink) →
        IfOk result (λ last. TellsAudible base audible.pair.talker notes (S.told start last)) }
{
    match audible.finish() {
        Ok(_) => Ok(audible.sink),
        Err(_) => Err(HeardFault::Stopped),
    }
}

/// Returns whether a core that had counted no RTP datagrams has received any.
fn has_rtp(core: &Core) -> bool
    ensures value { (base : World) (notes : List Note) → IsBase base → base.tally.media ≡ 0 →
        HasRun base notes core.now.state → result ≡ list_any is_media (events_in notes) }
{
    mg_core::theorems::events_are_counted();
    core.counts().media > 0
}

/// Returns the reason why a script was not run to its end. `stopped` is the reason why its follower stopped by itself,
/// if it did.
fn fault_of(fault: RunFault, stopped: Option<HeardFault>) -> HeardFault {
    match (fault, stopped) {
        (RunFault::Write, Some(own)) => own,
        (RunFault::Write, None) => HeardFault::Stopped,
        _ => HeardFault::Run(fault),
    }
}
