ghost use Rattle.std.specs.Prelude.{◌≡◌, [], IfOk};
ghost use Rattle.mg_core.specs.World.{World, start_of};
ghost use Rattle.mg_core.specs.aids.Stands.{StandsFor};
ghost use Rattle.mg_core.specs.aids.Following.{IsFollowedUntil};

use crate::fault::RunFault;
use crate::machine::Core;
use crate::resumer::Resumer;
use crate::watcher::Watcher;
use mg_engine::Config;
use std::alloc::Global;
use std::io::Read;

/// Runs a script on a new gateway, as [`resume`](crate::resume) does, until the script ends or the follower is done.
/// Returns the gateway.
///
/// Fails with `BadConfig` if the configuration is invalid, and otherwise as [`watch_from`].
pub fn watch<R: Read, F: Watcher>(
    alloc: Global,
    config: Config,
    reader: &mut R,
    follower: &mut F,
) -> Result<Core, RunFault>
    ensures followed { F.follows follower.old follower.old (start_of config) [] → IfOk result (λ core.
        IsFollowedUntil (start_of config) (R.remaining reader.old) (R.remaining reader.new) core.state F.done
        (λ f. F.follows follower.old f (start_of config)) follower.new) }
{
    let core = Core::new(alloc, config)?;
    watch_from(alloc, core, reader, follower)
}

/// Runs a script on a gateway in this state, as [`resume_from`](crate::resume_from) does, until the script ends or the
/// follower is done. Returns the gateway.
///
/// Before more of the script is read, each complete line and each tick that has arrived is reported to the follower.
/// The run ends if the follower is then done.
pub fn watch_from<R: Read, F: Watcher>(
    alloc: Global,
    core: Core,
    reader: &mut R,
    follower: &mut F,
) -> Result<Core, RunFault>
    ensures followed { (base : World) → StandsFor core.state base → F.follows follower.old follower.old base [] →
        IfOk result (λ last. IsFollowedUntil base (R.remaining reader.old) (R.remaining reader.new) last.state F.done
        (λ f. F.follows follower.old f base) follower.new) }
{
    let Ok(mut resumer) = Resumer::new(alloc, core) else {
        return Err(RunFault::NoMemory);
    };
    resumer.take_until_done(alloc, reader, follower)?;
    Ok(resumer.runner.core)
}
