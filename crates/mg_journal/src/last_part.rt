ghost use Rattle.std.specs.Prelude.{◌≡◌, ℕ, ◌+◌, ◌^◌, ◌<◌, ◌≤◌, length, take, IfOk, OnOk};
ghost use Rattle.mg_journal.specs.aids.LastPart.{HasBytes, HasHash, HoldsFrom, IsSearched, Searches, StartsAt};

use crate::journal_file::JournalFile;
use mg_chain::{Chain, mark_start};
use std::io::{self, ErrorKind};

/// The maximum number of bytes that are read from a file at once.
const CHUNK: usize = 64 * 1024;

/// The number of bytes that two neighbouring chunks share. So each mark, with the line feed in front of it, is
/// completely in one of the chunks.
const OVERLAP: u64 = 9;

/// The number of bytes by which the search moves towards the start of the file.
const STEP: u64 = CHUNK as u64 - OVERLAP;

/// Reads more bytes at an offset into a buffer whose first `filled` bytes are there already. Returns the new number of
/// filled bytes.
fn fill_some<F: JournalFile>(
    at: u64,
    filled: usize,
    buffer: &mut [u8],
    file: &mut F,
) -> io::Result<usize>
    requires within { filled ≤ length buffer.old }
    requires fits { at + length buffer.old < 2 ^ 64 }
    ensures same { F.file file.new ≡ F.file file.old }
    ensures within { IfOk result (λ n. n ≤ length buffer.old) }
    ensures bytes { HasBytes (F.file file.old) at (take filled buffer.old) →
        IfOk result (λ n. HasBytes (F.file file.old) at (take n buffer.new)) }
{
    match file.read(at + filled as u64, &mut buffer[filled..]) {
        // The file has become shorter since it was measured.
        Ok(0) => Err(io::Error::from(ErrorKind::UnexpectedEof)),
        Ok(n) => Ok(filled + n),
        Err(error) if error.kind() == ErrorKind::Interrupted => Ok(filled),
        Err(error) => Err(error),
    }
}

/// Fills a buffer with the bytes at an offset.
fn fill<F: JournalFile>(at: u64, buffer: &mut [u8], file: &mut F) -> io::Result<()>
    requires fits { at + length buffer.old < 2 ^ 64 }
    ensures same { F.file file.new ≡ F.file file.old }
    ensures bytes { OnOk result (HasBytes (F.file file.old) at buffer.new) }
{
    let mut filled = 0;
    for _ in 0..u64::MAX {
        if filled == buffer.len() {
            return Ok(());
        }
        match fill_some(at, filled, buffer, file) {
            Ok(n) => filled = n,
            Err(error) => return Err(error),
        }
    }
    Err(io::Error::from(ErrorKind::TimedOut))
}

/// Searches a chunk of a file's first `whole` bytes for the start of the last part, given that there is no mark after
/// `from`. The chunk fills the buffer. It ends at `whole`, or overlaps the bytes already searched.
fn search_chunk<F: JournalFile>(
    at: u64,
    from: u64,
    whole: u64,
    buffer: &mut [u8],
    file: &mut F,
) -> io::Result<Option<u64>>
    requires fits { at + length buffer.old ≤ whole }
    requires order { at ≤ from }
    requires overlap { at + length buffer.old < whole → from + OVERLAP ≤ at + length buffer.old }
    ensures same { F.file file.new ≡ F.file file.old }
    ensures value { IsSearched (F.file file.old) whole from → Searches (F.file file.old) whole at result }
{
    match fill(at, buffer, file) {
        Ok(()) => match mark_start(buffer) {
            Some(start) => Ok(Some(at + start as u64)),
            None if at == 0 => Ok(Some(0)),
            None => Ok(None),
        },
        Err(error) => Err(error),
    }
}

/// Returns the offset at which the last part of a file's first `whole` bytes begins. Searches backwards from their end.
fn find_start<F: JournalFile>(whole: u64, file: &mut F) -> io::Result<u64>
    ensures same { F.file file.new ≡ F.file file.old }
    ensures start { IfOk result (λ start. StartsAt (F.file file.old) whole start) }
{
    let mut buffer = [0; CHUNK];
    let mut from = whole;
    for _ in 0..u64::MAX {
        let at = from.saturating_sub(STEP);
        let end = from + OVERLAP.min(whole - from);
        let size = (end - at) as usize;
        match search_chunk(at, from, whole, &mut buffer[..size], file) {
            Ok(Some(start)) => return Ok(start),
            Ok(None) => from = at,
            Err(error) => return Err(error),
        }
    }
    Err(io::Error::from(ErrorKind::TimedOut))
}

/// Reads bytes from the file at an offset until the buffer is full, and adds them to the hash of a part.
fn hash_chunk<F: JournalFile>(
    at: u64,
    buffer: &mut [u8],
    chain: &mut Chain,
    file: &mut F,
) -> io::Result<()>
    requires some { 0 < length buffer.old }
    requires fits { at + length buffer.old < 2 ^ 64 }
    ensures same { F.file file.new ≡ F.file file.old }
    ensures part { (start : ℕ) → start ≤ at → HoldsFrom (F.file file.old) start at chain.old →
        OnOk result (HoldsFrom (F.file file.old) start (at + length buffer.old) chain.new) }
{
    match fill(at, buffer, file) {
        Ok(()) => {
            chain.extend(buffer);
            Ok(())
        }
        Err(error) => Err(error),
    }
}

/// Hashes the bytes of a file from `start` up to `whole`.
fn hash_from<F: JournalFile>(start: u64, whole: u64, file: &mut F) -> io::Result<Chain>
    requires within { start ≤ whole }
    ensures same { F.file file.new ≡ F.file file.old }
    ensures part { IfOk result (λ chain. HoldsFrom (F.file file.old) start whole chain) }
{
    let mut buffer = [0; CHUNK];
    let mut chain = Chain::new();
    let mut at = start;
    for _ in 0..u64::MAX {
        if at == whole {
            return Ok(chain);
        }
        let most = (whole - at).min(CHUNK as u64);
        match hash_chunk(at, &mut buffer[..most as usize], &mut chain, file) {
            Ok(()) => at += most,
            Err(error) => return Err(error),
        }
    }
    Err(io::Error::from(ErrorKind::TimedOut))
}

/// Returns the hash of the last part of a file's first `whole` bytes.
pub(crate) fn hash_last_part<F: JournalFile>(whole: u64, file: &mut F) -> io::Result<Chain>
    ensures same { F.file file.new ≡ F.file file.old }
    ensures hash { IfOk result (λ chain. HasHash (F.file file.old) whole chain) }
{
    match find_start(whole, file) {
        Ok(start) => hash_from(start, whole, file),
        Err(error) => Err(error),
    }
}
