//! Scripts that begin with a title and a checkpoint, and the gateways that go on from there.

ghost use Rattle.std.specs.Prelude.{◌≡◌, ◌++◌, IfOk, codes, true};
ghost use Rattle.std.specs.Io.KnownBytes.{Keeps};
ghost use Rattle.mg_service.specs.Title.{title_line};
ghost use Rattle.mg_core.specs.World.{World};
ghost use Rattle.mg_core.specs.aids.Stands.{StandsFor};
ghost use Rattle.mg_engine.specs.declared.config.Config.{Config};
ghost use Rattle.mg_hearing.specs.Resumed.{BeginsWithCheckpoint};
ghost use Rattle.mg_hearing.specs.aids.Beginning.{LeavesBase};

use crate::beginning::{Beginning, begin};
use crate::look_ahead::LookAhead;
use crate::resume_fault::ResumeFault;
use crate::script_fault::{ScriptFault, restoring_at, restoring_line};
use crate::script_title::config_in;
use mg_checkpoint::{RestoreFault, restore};
use mg_core::{Config, Core};
use std::alloc::Global;
use std::io::{ErrorKind, Read};

/// The first bytes of a title's line.
const TITLE: &[u8] = b"# mg_bridge replay ";

/// The first words of a checkpoint.
const WORDS: &[u8] = b"checkpoint after ";

/// A gateway that goes on from the checkpoint of a script.
#[derive(Drop)]
pub struct Resumed {
    pub core: Core,
    /// The number of lines before the script: the title and the checkpoint.
    pub lines: u64,
}

/// Returns whether a text with these first bytes may begin with a title and the first words of a checkpoint.
fn may_begin(seen: &[u8]) -> bool {
    let mut lines = seen.split(|byte| *byte == b'\n');
    let title = lines.next().unwrap_or(b"");
    match lines.next() {
        Some(behind) => title.starts_with(TITLE) && WORDS.starts_with(behind),
        None => title.starts_with(TITLE) || TITLE.starts_with(title),
    }
}

/// Looks at a title and the first words of a checkpoint, as far as the next bytes agree with them.
fn look_for_checkpoint<R: LookAhead>(reader: &mut R)
    ensures unread { Keeps (R.remaining reader.old) (R.remaining reader.new) }
{
    for _ in 0..u32::MAX {
        let seen = reader.seen();
        if seen.ends_with(WORDS) || !may_begin(seen) {
            return;
        }
        match reader.look() {
            Ok(true) => {}
            _ => return,
        }
    }
}

/// Returns whether these bytes are a title and the first words of a checkpoint.
fn is_title_and_words(seen: &[u8]) -> bool
    ensures value { result ≡ true → (config : Config) × (seen.now ≡ title_line config ++ codes "checkpoint after ") }
{
    match seen.strip_suffix(WORDS) {
        Some(line) => config_in(line).is_some(),
        None => false,
    }
}

/// Returns whether the bytes of a reader begin with a title and the first words of a checkpoint. All bytes can still be
/// read. Returns `false` also if a read fails.
pub fn begins_with_checkpoint<R: LookAhead>(reader: &mut R) -> bool
    ensures unread { Keeps (R.remaining reader.old) (R.remaining reader.new) }
    ensures begins { result ≡ true → BeginsWithCheckpoint (R.remaining reader.new) }
{
    look_for_checkpoint(reader);
    is_title_and_words(reader.seen())
}

/// Converts the reason why the beginning of a script was not read. Only its title and its checkpoint were read.
fn unread_beginning(fault: &ScriptFault) -> ResumeFault {
    match fault {
        ScriptFault::Unreadable(error) if error.kind() != ErrorKind::OutOfMemory => {
            ResumeFault::Read
        }
        _ => ResumeFault::NoMemory,
    }
}

/// Converts the reason why no gateway was restored from a checkpoint, which follows a title.
fn unrestored(fault: RestoreFault) -> ResumeFault {
    match (fault, restoring_line(fault)) {
        (RestoreFault::NoMemory, _) => ResumeFault::NoMemory,
        (_, Some(line)) => ResumeFault::Checkpoint(restoring_at(fault, line.saturating_add(1))),
        (_, None) => ResumeFault::Checkpoint(fault),
    }
}

/// Reads a title and the checkpoint behind it, and makes the gateway that goes on from there. The bytes must begin with
/// a title and the first words of a checkpoint. Fails if the title is that of another configuration.
pub fn resume<R: Read>(
    alloc: Global,
    config: Config,
    reader: &mut R,
) -> Result<Resumed, ResumeFault>
    ensures value { IfOk result (λ resumed. (base : World) × StandsFor resumed.core.state base
        × LeavesBase config base (R.remaining reader.old) (R.remaining reader.new)) }
{
    let Beginning {
        front: _,
        start,
        lines,
    } = match begin(alloc, reader) {
        Ok(beginning) => beginning,
        Err(fault) => return Err(unread_beginning(&fault)),
    };
    if start.config != config {
        return Err(ResumeFault::OtherGateway);
    }
    let Some(text) = &start.checkpoint else {
        return Err(ResumeFault::NoMemory);
    };
    match restore(alloc, start.config, text.as_slice()) {
        Ok(core) => Ok(Resumed { core, lines }),
        Err(fault) => Err(unrestored(fault)),
    }
}
