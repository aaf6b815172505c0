//! The beginning of a script: its title and, if the script goes on from a checkpoint, that checkpoint.

ghost use Rattle.std.specs.Prelude.{IfOk};
ghost use Rattle.mg_hearing.specs.aids.Beginning.{HasBegun};

use crate::checkpoint::{Behind, read_behind};
use crate::first_line::FirstLine;
use crate::script_fault::ScriptFault;
use crate::script_title::read_title;
use crate::start::Start;
use std::alloc::Global;
use std::io::Read;

/// The beginning of a script, as far as it was read.
#[derive(Drop)]
pub(crate) struct Beginning {
    /// The bytes that were read and that are part of the script that is run. If the script goes on from a checkpoint,
    /// the title and the checkpoint aren't part of it, and there are no such bytes.
    pub(crate) front: FirstLine,
    pub(crate) start: Start,
    /// The number of lines before the script that is run.
    pub(crate) lines: u64,
}

/// Returns the number of line feeds in a text.
fn feeds_in(text: &[u8]) -> u64 {
    let mut feeds: u64 = 0;
    for byte in text {
        if *byte == b'\n' {
            feeds = feeds.saturating_add(1);
        }
    }
    feeds
}

/// Reads the beginning of a script.
pub(crate) fn begin<R: Read>(alloc: Global, reader: &mut R) -> Result<Beginning, ScriptFault>
    ensures value { IfOk result (λ begun.
        HasBegun begun.start begun.front.items (R.remaining reader.old) (R.remaining reader.new)) }
{
    let (mut front, config) = read_title(reader)?;
    match read_behind(alloc, reader) {
        Ok(Behind::Script(bytes)) => {
            // A title's line is short, so there is room.
            if front.try_extend_from_slice(bytes.as_slice()).is_err() {
                return Err(ScriptFault::NoTitle);
            }
            let start = Start {
                config,
                checkpoint: None,
            };
            Ok(Beginning {
                front,
                start,
                lines: 0,
            })
        }
        Ok(Behind::Checkpoint(text)) => {
            let lines = feeds_in(text.as_slice()).saturating_add(1);
            let start = Start {
                config,
                checkpoint: Some(text),
            };
            Ok(Beginning {
                front: FirstLine::new(),
                start,
                lines,
            })
        }
        Err(error) => Err(ScriptFault::Unreadable(error)),
    }
}
