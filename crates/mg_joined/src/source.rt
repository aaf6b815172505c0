ghost use Rattle.std.specs.Prelude.{◌≡◌, ◌<◌, [], List, ℕ, IfOk, Some, false, length, true};
ghost use Rattle.std.specs.Io.KnownBytes.{Consumes};
ghost use Rattle.mg_joined.specs.aids.Reading.{HasReadLine, HasReadLines, HasTakenLines, IsBefore};

use memchr::memrchr;
use mg_chain::Chain;
use std::io::{self, BufRead};

/// A file that is being read line by line, and the hash of the last part of the lines so far.
#[derive(Drop)]
pub struct Source<B: BufRead> {
    pub reader: B,
    pub chain: Chain,
}

impl<B: BufRead> Source<B> {
    pub(crate) fn new(reader: B) -> Self
        ensures reader { result.reader ≡ reader }
        ensures chain { (left : List ℕ) → IsBefore [] left result.chain }
    {
        Source {
            reader,
            chain: Chain::new(),
        }
    }

    /// Reads the next line into `line`, which must be empty. Returns whether there was one.
    pub(crate) fn read_line(&mut self, line: &mut Vec<u8>) -> io::Result<bool>
        requires empty { line.old.items ≡ [] }
        ensures none_lost { Consumes (B.remaining self.old.reader) (B.remaining self.new.reader) line.new.items }
        ensures some { IfOk result (λ some.
            (some ≡ true → 0 < length line.new.items) × (some ≡ false → line.new.items ≡ [])) }
        ensures value { IfOk result (λ some. (before left : List ℕ) → B.remaining self.old.reader ≡ Some left →
            IsBefore before left self.old.chain →
            HasReadLine before left some line.new.items (B.remaining self.new.reader) self.new.chain) }
    {
        if self.reader.read_until(b'\n', line)? == 0 {
            return Ok(false);
        }
        self.chain.add(line.as_slice());
        Ok(true)
    }

    /// Reads the next line and the complete lines behind it that are in memory into `lines`, which must be empty. Returns
    /// whether there was a line.
    pub(crate) fn read_lines(&mut self, lines: &mut Vec<u8>) -> io::Result<bool>
        requires empty { lines.old.items ≡ [] }
        ensures none_lost { Consumes (B.remaining self.old.reader) (B.remaining self.new.reader) lines.new.items }
        ensures some { IfOk result (λ some.
            (some ≡ true → 0 < length lines.new.items) × (some ≡ false → lines.new.items ≡ [])) }
        ensures value { IfOk result (λ some. (before left : List ℕ) → B.remaining self.old.reader ≡ Some left →
            IsBefore before left self.old.chain →
            HasReadLines before left some lines.new.items (B.remaining self.new.reader) self.new.chain) }
    {
        if self.reader.read_until(b'\n', lines)? == 0 {
            return Ok(false);
        }
        take_buffered(&mut self.reader, lines)?;
        self.chain.add(lines.as_slice());
        Ok(true)
    }
}

/// Appends the complete lines in a reader's buffer, which is filled if it is empty. If that fails, the next read fails.
fn take_buffered<B: BufRead>(reader: &mut B, lines: &mut Vec<u8>) -> io::Result<()>
    ensures value { HasTakenLines (B.remaining reader.old) (B.remaining reader.new) lines.old.items lines.new.items }
{
    let Ok(buffer) = reader.fill_buf() else {
        return Ok(());
    };
    let Some(last) = memrchr(b'\n', buffer) else {
        return Ok(());
    };
    let count = last + 1;
    lines.extend_from_slice(&buffer[..count])?;
    reader.consume(count);
    Ok(())
}
