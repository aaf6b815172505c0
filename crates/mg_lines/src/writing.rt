ghost use Rattle.mg_lines.specs.Streams.{Writes};
ghost use Rattle.mg_lines.specs.aids.Writing.{WritesSome};

use crate::write_failed::WriteFailed;
use std::io::{ErrorKind, Write};

/// Calls a writer once to write `text`. Returns how many bytes the writer wrote (0 if the write was interrupted). A
/// writer that writes zero bytes counts as failed.
fn write_some<W: Write>(text: &[u8], writer: &mut W) -> Result<usize, WriteFailed>
    ensures value { WritesSome text.now (W.contents writer.old) (W.contents writer.new) result }
{
    match writer.write(text) {
        Ok(0) => Err(WriteFailed),
        Ok(n) => Ok(n),
        Err(e) if e.kind() == ErrorKind::Interrupted => Ok(0),
        Err(_) => Err(WriteFailed),
    }
}

/// Writes all of `text`. If a write fails, only a proper prefix of the text was written.
pub fn write_whole<W: Write>(text: &[u8], writer: &mut W) -> Result<(), WriteFailed>
    ensures value { Writes text.now (W.contents writer.old) (W.contents writer.new) result }
{
    let mut at = 0;
    for _ in 0..u64::MAX {
        if at == text.len() {
            return Ok(());
        }
        at += write_some(&text[at..], writer)?;
    }
    if at == text.len() {
        Ok(())
    } else {
        Err(WriteFailed)
    }
}
