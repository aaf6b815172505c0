ghost use Rattle.std.specs.Prelude.{◌≡◌, IfOk};
ghost use Rattle.mg_core.specs.Follow.{IsFollowed};
ghost use Rattle.mg_core.specs.Note.{events_in};
ghost use Rattle.mg_core.specs.World.{World};
ghost use Rattle.mg_core.specs.aids.Stands.{StandsFor};
ghost use Rattle.mg_core.specs.declared.state.CoreState.{CoreState};
ghost use Rattle.mg_heard.specs.aids.Calling.{AreMissing};
ghost use Rattle.mg_heard.specs.Told.{TellsAll};
ghost use Rattle.mg_heard.specs.Verdict.{verdict_at};

use crate::heard_fault::HeardFault;
use crate::hearing::hear;
use crate::instant::Instant;
use crate::missing::Missing;
use crate::query::Query;
use crate::roll::Roll;
use crate::verdict::Verdict;
use mg_core::Core;
use mg_dates::Date;
use std::alloc::Global;
use std::io::Read;

/// Runs a script on a gateway in this state, and answers whether a listener could hear a talker at a given time.
/// `query` selects the listeners and the talkers. Also returns whether the gateway never had such a talker, and whether
/// it never had such a listener.
pub fn hear_at<R: Read>(
    alloc: Global,
    core: Core,
    reader: &mut R,
    query: Query,
    time: Date,
) -> Result<(Verdict, Missing), HeardFault>
    ensures answer { (base : World) → StandsFor core.state base → IfOk result (λ answer. (state : CoreState) ×
        IsFollowed base (R.remaining reader.old) (R.remaining reader.new) state
        (λ notes. AreMissing base (events_in notes) query.talker query.listener answer.1
        × TellsAll base notes (λ extent xs. answer.0 ≡ verdict_at query time extent xs))) }
{
    let Ok(roll) = Roll::of_query(alloc, &query) else {
        return Err(HeardFault::NoMemory);
    };
    let (instant, extent, missing) = hear(alloc, core, reader, Instant::new(query, time), roll)?;
    Ok((instant.verdict(&extent), missing))
}
