ghost use Rattle.std.specs.Prelude.{◌≡◌, IfOk, IfSome};
ghost use Rattle.std.specs.Io.KnownBytes.{Consumes};
ghost use Rattle.mg_service.specs.Title.{title_line};

use crate::first_line::{FirstLine, first_line};
use crate::script_fault::ScriptFault;
use mg_core::Config;
use mg_service::titled;
use std::io::Read;

/// Returns the configuration in the title on a script's first line, or `None` if the line isn't a title.
pub(crate) fn config_in(line: &[u8]) -> Option<Config>
    ensures value { IfSome result (λ config. line.now ≡ title_line config) }
{
    let text = line.strip_suffix(b"\n".as_slice())?;
    let title = text.strip_prefix(b"# ".as_slice())?;
    titled(title)
}

/// Reads the first line of a script. Returns the line, and the configuration that the line states.
pub(crate) fn read_title<R: Read>(reader: &mut R) -> Result<(FirstLine, Config), ScriptFault>
    ensures value { IfOk result (λ title.
        Consumes (R.remaining reader.old) (R.remaining reader.new) title.0.items
        × (title.0.items ≡ title_line title.1)) }
{
    let line = match first_line(reader) {
        Ok(line) => line,
        Err(error) => return Err(ScriptFault::Unreadable(error)),
    };
    match config_in(line.as_slice()) {
        Some(config) => Ok((line, config)),
        None => Err(ScriptFault::NoTitle),
    }
}
