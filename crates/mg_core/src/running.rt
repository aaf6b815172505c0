ghost use Rattle.std.specs.Prelude.{◌≡◌, ◌≢◌, ◌↔◌, [], Err, OnOk};
ghost use Rattle.mg_engine.specs.declared.config.Config.{Config};
ghost use Rattle.mg_engine.specs.Config.{IsValidConfig};
ghost use Rattle.mg_core.specs.declared.shown.Shown.{Shown};
ghost use Rattle.mg_core.specs.Run.{ScriptRan};
ghost use Rattle.mg_core.specs.World.{World, start_of};
ghost use Rattle.mg_core.specs.aids.Stands.{StandsFor};
ghost use Rattle.mg_core.specs.aids.Steps.{Follows};

use crate::counts::Counts;
use crate::fault::RunFault;
use crate::machine::Core;
use crate::script_runner::ScriptRunner;
use crate::shown::Shown;
use mg_engine::Config;
use std::alloc::Global;
use std::io::{Read, Write};

/// Runs a whole script on a new gateway, as [`run_from`] does.
///
/// Fails with `BadConfig` if and only if the configuration is invalid. Nothing was read then.
pub fn run<R: Read, W: Write>(
    alloc: Global,
    config: Config,
    shown: Shown,
    reader: &mut R,
    writer: &mut W,
) -> Result<Counts, RunFault>
    ensures script { ScriptRan (start_of config) shown (R.remaining reader.old) (R.remaining reader.new)
        (W.contents writer.old) (W.contents writer.new) result }
    ensures bad { (result ≡ Err RunFault.BadConfig) ↔ ¬ IsValidConfig config }
    ensures sound { OnOk result (IsValidConfig config) }
{
    let core = Core::new(alloc, config)?;
    run_from(alloc, core, shown, reader, writer)
}

/// Runs a whole script on a gateway in this state. Writes a line for each answer and each packet and, if changes are
/// shown, for each change.
///
/// The lines for an event are written before any more input is read. `Ok` means that all of the input is a script, and
/// that exactly the output of its events was written. The result counts the script's lines and the datagrams sent, and
/// has the gateway's counts of events and received datagrams.
///
/// If the run failed, all lines before the failure were run, and their output was written completely before any more
/// input was read. The fault says why the run stopped:
/// - `Script`: carries the number of the first bad line; the lines before it were run.
/// - `Read`: the lines that had been read completely were run, and no others. A run also ends with `Read` if
///   4,294,967,295 reads don't reach the end.
/// - `Write`: the output of the last line that was run was written only in part.
/// - `NoMemory`: memory ran out at a line, which had no effect; the lines before it were run. Or memory ran out before
///   anything was read.
pub fn run_from<R: Read, W: Write>(
    alloc: Global,
    core: Core,
    shown: Shown,
    reader: &mut R,
    writer: &mut W,
) -> Result<Counts, RunFault>
    ensures script { (base : World) → StandsFor core.state base → ScriptRan base shown (R.remaining reader.old)
        (R.remaining reader.new) (W.contents writer.old) (W.contents writer.new) result }
    ensures good { result ≢ Err RunFault.BadConfig }
{
    let Ok(mut runner) = ScriptRunner::new(alloc, core, shown) else {
        return Err(RunFault::NoMemory);
    };
    run_whole(&mut runner, alloc, reader, writer)
}

/// Runs a whole script on the gateway of a runner that has run nothing.
fn run_whole<R: Read, W: Write>(
    runner: &mut ScriptRunner,
    alloc: Global,
    reader: &mut R,
    writer: &mut W,
) -> Result<Counts, RunFault>
    requires lines { runner.old.lines ≡ 0 }
    requires partial { runner.old.partial.text ≡ [] }
    requires sent { runner.old.runner.sent ≡ 0 }
    ensures script { (base : World) (shown : Shown) →
        Follows shown runner.old.runner.core.state runner.old.runner.watched base →
        ScriptRan base shown (R.remaining reader.old) (R.remaining reader.new) (W.contents writer.old)
        (W.contents writer.new) result }
    ensures good { result ≢ Err RunFault.BadConfig }
{
    runner.take_all(alloc, reader, writer)?;
    Ok(runner.counts())
}
