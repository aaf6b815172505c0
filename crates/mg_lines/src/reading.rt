ghost use Rattle.mg_lines.specs.Streams.{ReadsSome};

use crate::read_failed::ReadFailed;
use std::io::{ErrorKind, Read};

/// The maximum number of bytes that one read requests.
pub const READ_SIZE: usize = 4096;

/// Reads some bytes. Returns how many bytes were read (0 if the read was interrupted), or `None` at the end of the
/// input.
pub fn read_some<R: Read>(
    reader: &mut R,
    buffer: &mut [u8; READ_SIZE],
) -> Result<Option<usize>, ReadFailed>
    ensures value { ReadsSome buffer.new (R.remaining reader.old) (R.remaining reader.new) result }
{
    match reader.read(buffer) {
        Ok(0) => Ok(None),
        Ok(n) => Ok(Some(n)),
        Err(e) if e.kind() == ErrorKind::Interrupted => Ok(Some(0)),
        Err(_) => Err(ReadFailed),
    }
}
