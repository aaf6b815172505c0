//! What follows a title: a checkpoint, or the lines of a script.

ghost use Rattle.std.specs.Prelude.{◌≡◌, ◌<◌, ◌++◌, List, ℕ, IfOk, OnOk, length};
ghost use Rattle.std.specs.Io.KnownBytes.{Consumes};
ghost use Rattle.mg_hearing.specs.aids.Beginning.{IsBehind};

use arrayvec::ArrayVec;
use mg_checkpoint::{begins_checkpoint, ends_checkpoint};
use std::alloc::Global;
use std::io::{self, ErrorKind, Read};

/// The first words of a checkpoint.
const WORDS: &[u8] = b"checkpoint after ";

/// Room for the first words of a checkpoint.
const WORDS_ROOM: usize = 17;

/// The number of bytes after which no more lines of a checkpoint are read. A checkpoint with all terminations and kept
/// replies has about two million bytes.
const LIMIT: usize = 4_194_304;

/// The first bytes behind a title. They are the first words of a checkpoint, or agree with these words except perhaps
/// for the last byte.
pub(crate) type Words = ArrayVec<u8, WORDS_ROOM>;

/// What was read behind a title.
#[derive(Drop)]
pub(crate) enum Behind {
    /// The first bytes of a script.
    Script(Words),
    /// The lines of a checkpoint, up to its last line.
    Checkpoint(Vec<u8>),
}

/// Reads the next byte. Returns whether there may be more bytes.
fn read_byte<R: Read>(reader: &mut R, text: &mut Vec<u8>) -> io::Result<bool>
    ensures value { OnOk result ((part : List ℕ) × Consumes (R.remaining reader.old) (R.remaining reader.new) part
        × (text.new.items ≡ text.old.items ++ part)) }
{
    let mut buffer = [0];
    match reader.read(&mut buffer) {
        Ok(n) => {
            text.extend_from_slice(&buffer[..n])?;
            Ok(n == 1)
        }
        Err(error) if error.kind() == ErrorKind::Interrupted => Ok(true),
        Err(error) => Err(error),
    }
}

/// Reads the next byte of some words. Returns whether there may be more bytes.
fn read_letter<R: Read>(reader: &mut R, words: &mut Words) -> io::Result<bool>
    requires room { length words.old.items < WORDS_ROOM }
    ensures value { OnOk result ((part : List ℕ) × Consumes (R.remaining reader.old) (R.remaining reader.new) part
        × (words.new.items ≡ words.old.items ++ part)) }
{
    let mut buffer = [0];
    match reader.read(&mut buffer) {
        Ok(n) => {
            let _ = words.try_extend_from_slice(&buffer[..n]);
            Ok(n == 1)
        }
        Err(error) if error.kind() == ErrorKind::Interrupted => Ok(true),
        Err(error) => Err(error),
    }
}

/// Reads bytes until they are the first words of a checkpoint, or differ from them.
fn read_words<R: Read>(reader: &mut R) -> io::Result<Words>
    ensures value { IfOk result (λ words. Consumes (R.remaining reader.old) (R.remaining reader.new) words.items) }
{
    let mut words = Words::new();
    for _ in 0..u32::MAX {
        if words.is_full() || !read_letter(reader, &mut words)? {
            return Ok(words);
        }
        if !WORDS.starts_with(words.as_slice()) {
            return Ok(words);
        }
    }
    Ok(words)
}

/// Reads a checkpoint whose first bytes were read. If its last line is missing, reads to the end, or until the lines are
/// longer than any checkpoint.
fn read_lines<R: Read>(alloc: Global, first: &[u8], reader: &mut R) -> io::Result<Vec<u8>>
    ensures value { IfOk result (λ text. (more : List ℕ) × (text.items ≡ first.now ++ more)
        × Consumes (R.remaining reader.old) (R.remaining reader.new) more) }
{
    let mut text = Vec::from_slice(alloc, first)?;
    let mut start = 0;
    for _ in 0..LIMIT {
        if !read_byte(reader, &mut text)? {
            return Ok(text);
        }
        if text.ends_with(b"\n") {
            if ends_checkpoint(text.get(start..).unwrap_or(b"")) {
                return Ok(text);
            }
            start = text.len();
        }
    }
    Ok(text)
}

/// Reads what follows a title: a checkpoint, or the first bytes of a script.
pub(crate) fn read_behind<R: Read>(alloc: Global, reader: &mut R) -> io::Result<Behind>
    ensures value { IfOk result (λ behind. IsBehind behind (R.remaining reader.old) (R.remaining reader.new)) }
{
    let words = read_words(reader)?;
    if begins_checkpoint(words.as_slice()) {
        let text = read_lines(alloc, words.as_slice(), reader)?;
        Ok(Behind::Checkpoint(text))
    } else {
        Ok(Behind::Script(words))
    }
}
