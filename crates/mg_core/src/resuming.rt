ghost use Rattle.std.specs.Prelude.{◌≡◌, ◌≢◌, ◌↔◌, ℕ, [], true, Err, IfOk, OnOk};
ghost use Rattle.mg_engine.specs.Config.{IsValidConfig};
ghost use Rattle.mg_core.specs.Follow.{IsFollowed};
ghost use Rattle.mg_core.specs.World.{World, start_of};
ghost use Rattle.mg_core.specs.aids.Stands.{StandsFor};
ghost use Rattle.mg_core.specs.aids.Resume.{FindsBadLine, IsResumed};

use crate::fault::RunFault;
use crate::follower::Follower;
use crate::machine::Core;
use crate::resumer::Resumer;
use mg_engine::Config;
use std::alloc::Global;
use std::io::Read;

/// Runs a whole script on a new gateway, without sending answers or packets, and returns the gateway.
///
/// Fails with `BadConfig` if the configuration is invalid, and otherwise as [`resume_from`].
pub fn resume<R: Read, F: Follower>(
    alloc: Global,
    config: Config,
    reader: &mut R,
    follower: &mut F,
) -> Result<Core, RunFault>
    ensures resumed { IfOk result (λ core.
        IsResumed (start_of config) (R.remaining reader.old) (R.remaining reader.new) core.state) }
    ensures script { (number : ℕ) → result ≡ Err (RunFault.Script number) →
        FindsBadLine (R.remaining reader.old) (R.remaining reader.new) number }
    ensures bad { (result ≡ Err RunFault.BadConfig) ↔ ¬ IsValidConfig config }
    ensures sound { OnOk result (IsValidConfig config) }
    ensures followed { F.follows follower.old follower.old (start_of config) [] → IfOk result (λ core.
        IsFollowed (start_of config) (R.remaining reader.old) (R.remaining reader.new) core.state
        (F.follows follower.old follower.new (start_of config))) }
    ensures stops { result ≡ Err RunFault.Write → F.may_stop ≡ true }
{
    let core = Core::new(alloc, config)?;
    resume_from(alloc, core, reader, follower)
}

/// Runs a whole script on a gateway in this state, without sending answers or packets, and returns the gateway.
///
/// Consecutive ticks are run together, so hours of ticks cost little more than reading their lines. RTP datagrams in
/// the script are handled too.
///
/// Fails with `Script` at the first bad line, with `Write` if the follower stops, and with `NoMemory` if memory runs
/// out. Fails with `Read` if reading fails, or if 4,294,967,295 reads don't reach the end.
pub fn resume_from<R: Read, F: Follower>(
    alloc: Global,
    core: Core,
    reader: &mut R,
    follower: &mut F,
) -> Result<Core, RunFault>
    ensures resumed { (base : World) → StandsFor core.state base → IfOk result (λ last.
        IsResumed base (R.remaining reader.old) (R.remaining reader.new) last.state) }
    ensures script { (base : World) (number : ℕ) → StandsFor core.state base → result ≡ Err (RunFault.Script number) →
        FindsBadLine (R.remaining reader.old) (R.remaining reader.new) number }
    ensures good { result ≢ Err RunFault.BadConfig }
    ensures followed { (base : World) → StandsFor core.state base → F.follows follower.old follower.old base [] →
        IfOk result (λ last. IsFollowed base (R.remaining reader.old) (R.remaining reader.new) last.state
        (F.follows follower.old follower.new base)) }
    ensures stops { (base : World) → StandsFor core.state base → result ≡ Err RunFault.Write → F.may_stop ≡ true }
{
    let Ok(mut resumer) = Resumer::new(alloc, core) else {
        return Err(RunFault::NoMemory);
    };
    resumer.take_all(alloc, reader, follower)?;
    Ok(resumer.runner.core)
}
