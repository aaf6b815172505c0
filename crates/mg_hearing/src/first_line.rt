ghost use Rattle.std.specs.Prelude.{◌≡◌, ◌<◌, ◌++◌, length, IfOk, List, OnOk, ℕ};
ghost use Rattle.std.specs.Io.KnownBytes.{Consumes};

use arrayvec::ArrayVec;
use std::io::{self, ErrorKind, Read};

/// The maximum length of a first line, in bytes. The line of a title is shorter.
const LIMIT: usize = 1024;

/// The first line of a script, including its line feed, if any. A line of more than 1,024 bytes is truncated.
pub(crate) type FirstLine = ArrayVec<u8, LIMIT>;

/// Reads the next byte of a line. Returns whether the line may have more bytes.
fn read_byte<R: Read>(reader: &mut R, line: &mut FirstLine) -> io::Result<bool>
    requires room { length line.old.items < LIMIT }
    ensures value { OnOk result ((part : List ℕ) × Consumes (R.remaining reader.old) (R.remaining reader.new) part
        × (line.new.items ≡ line.old.items ++ part)) }
{
    let mut buffer = [0];
    match reader.read(&mut buffer) {
        Ok(n) => {
            let _ = line.try_extend_from_slice(&buffer[..n]);
            Ok(n == 1 && buffer != *b"\n")
        }
        Err(error) if error.kind() == ErrorKind::Interrupted => Ok(true),
        Err(error) => Err(error),
    }
}

/// Reads the first line of a script, and no more.
pub(crate) fn first_line<R: Read>(reader: &mut R) -> io::Result<FirstLine>
    ensures value { IfOk result (λ line.
        Consumes (R.remaining reader.old) (R.remaining reader.new) line.items) }
{
    let mut line = FirstLine::new();
    for _ in 0..u32::MAX {
        if line.is_full() || !read_byte(reader, &mut line)? {
            return Ok(line);
        }
    }
    Ok(line)
}
