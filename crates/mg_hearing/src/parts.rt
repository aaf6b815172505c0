ghost use Rattle.std.specs.Prelude.{OnOk};
ghost use Rattle.std.specs.List.{flat_map};
ghost use Rattle.std.specs.Io.KnownBytes.{Appends};

use std::io::{self, Write};

/// Writes strings, one after another.
pub(crate) fn write_parts<W: Write>(parts: &[&[u8]], output: &mut W) -> io::Result<()>
    ensures value { OnOk result (Appends (W.contents output.old) (W.contents output.new)
        (flat_map (λ part. part.now) parts.now)) }
{
    for part in parts {
        output.write_all(*part)?;
    }
    Ok(())
}
