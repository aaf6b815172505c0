ghost use Rattle.std.specs.Prelude.{◌≡◌, [], IfOk};
ghost use Rattle.mg_core.specs.World.{World};
ghost use Rattle.mg_core.specs.aids.Stands.{StandsFor};
ghost use Rattle.mg_core.specs.Base.{IsBase};
ghost use Rattle.mg_checkpoint.specs.Checkpoint.{checkpoint_text, without_speech};
ghost use Rattle.mg_checkpoint.specs.aids.Rebuilt.{IsRebuilt, RepresentsBase, RestoresWorlds};

use crate::comparing::compare;
use crate::fault::RestoreFault;
use crate::rebuilding::rebuild;
use crate::saving::save;
use mg_core::{Core, CoreState};
use mg_engine::Config;
use mg_engine::theorems::quiet_engines_represent;
use mg_kept::theorems::kept_replies_are_distinct;
use std::alloc::Global;

/// Exposes to a proof which worlds a rebuilt state represents. Has no effect.
fn assert_represents(state: &CoreState, config: Config)
    requires rebuilt { IsRebuilt config state.now }
    ensures base { RepresentsBase config state.now }
    ensures restored { RestoresWorlds config state.now }
{
    let _ = config;
    state.engine.assert_represents();
    let _ = state.engine.terminations();
    kept_replies_are_distinct(&state.kept);
    quiet_engines_represent();
}

/// Makes a gateway from a checkpoint.
///
/// The gateway has what the checkpoint says, and has received no RTP datagram. The configuration must be that of the
/// gateway that was saved: the text doesn't have it. Fails if the configuration is invalid, if the text isn't exactly
/// the checkpoint of the gateway that it describes, or if memory runs out.
pub fn restore(alloc: Global, config: Config, text: &[u8]) -> Result<Core, RestoreFault>
    ensures restored { IfOk result (λ core. (w : World) → IsBase w → w.gateway.config ≡ config →
        checkpoint_text w ≡ text.now → StandsFor core.state (without_speech w)) }
    ensures base { IfOk result (λ core. (b : World) × IsBase b × (b.gateway.config ≡ config) ×
        (without_speech b ≡ b) × (checkpoint_text b ≡ text.now) × StandsFor core.state b) }
    ensures nothing { IfOk result (λ core. (core.answer ≡ []) × (core.outbox ≡ [])) }
{
    let state = rebuild(alloc, config, text)?;
    assert_represents(&state, config);
    let core = Core::from_state(alloc, state)?;
    let mut saved = Vec::new(alloc);
    save(&core, &mut saved)?;
    compare(text, saved.as_slice())?;
    Ok(core)
}
