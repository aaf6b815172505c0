//! Gateways that begin as a script states.

ghost use Rattle.std.specs.Prelude.{◌≡◌, IfOk, OnOk};
ghost use Rattle.mg_core.specs.Base.{IsBase};
ghost use Rattle.mg_core.specs.World.{World, start_of};
ghost use Rattle.mg_core.specs.aids.Stands.{StandsFor};
ghost use Rattle.mg_audible.specs.aids.Keeping.{AllStandFor};
ghost use Rattle.mg_hearing.specs.aids.Beginning.{IsBeginningOf};

use crate::script_fault::ScriptFault;
use crate::start::Start;
use mg_audible::Gateways;
use mg_checkpoint::restore;
use mg_core::{Config, Core, RunFault, StartFault};
use mg_heard::HeardFault;
use std::alloc::Global;

/// Starts a new gateway.
fn new_core(alloc: Global, config: Config) -> Result<Core, StartFault>
    ensures started { IfOk result (λ core. StandsFor core.state (start_of config)) }
    ensures base { OnOk result (IsBase (start_of config)) }
{
    mg_core::theorems::bases_stay_bases();
    let core = Core::new(alloc, config)?;
    Ok(core)
}

/// Starts a gateway.
pub(crate) fn start_core(alloc: Global, start: &Start) -> Result<Core, ScriptFault>
    ensures started { IfOk result (λ core. (base : World) → IsBeginningOf start.now base → StandsFor core.state base) }
    ensures base { OnOk result ((base : World) × IsBeginningOf start.now base) }
    ensures sound { OnOk result ((base : World) → IsBeginningOf start.now base → IsBase base × (base.tally.media ≡ 0)) }
{
    match &start.checkpoint {
        Some(text) => match restore(alloc, start.config, text.as_slice()) {
            Ok(core) => Ok(core),
            Err(fault) => Err(ScriptFault::Checkpoint(fault)),
        },
        None => match new_core(alloc, start.config) {
            Ok(core) => Ok(core),
            Err(fault) => Err(ScriptFault::Heard(HeardFault::Run(RunFault::from(fault)))),
        },
    }
}

/// Starts three gateways.
pub(crate) fn start_gateways(alloc: Global, start: &Start) -> Result<Gateways, ScriptFault>
    ensures started { IfOk result (λ gateways.
        (base : World) → IsBeginningOf start.now base → AllStandFor gateways base) }
    ensures base { OnOk result ((base : World) × IsBeginningOf start.now base) }
    ensures sound { OnOk result ((base : World) → IsBeginningOf start.now base → IsBase base × (base.tally.media ≡ 0)) }
{
    Ok(Gateways {
        script: start_core(alloc, start)?,
        whole: start_core(alloc, start)?,
        without: start_core(alloc, start)?,
    })
}
