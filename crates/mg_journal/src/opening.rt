ghost use Rattle.std.specs.Prelude.{◌≡◌, ◌≢◌, ℕ, ◌+◌, ◌<◌, ◌≤◌, true, false, [], length, drop, take, List, Option, IfOk, IfSome, OnOk};
ghost use Rattle.std.specs.Io.{ReadsAtMost, StartsWith};
ghost use Rattle.std.specs.Io.KnownBytes.{Consumes, ReadConsumes};
ghost use Rattle.mg_journal.specs.Text.{whole_lines};
ghost use Rattle.mg_journal.specs.Opening.{IsSound};
ghost use Rattle.mg_journal.specs.aids.Opened.{left_to_read, text_in};
ghost use Rattle.mg_journal.specs.aids.Appending.{IsHashed, IsJournal};
ghost use Rattle.mg_journal.specs.aids.LastPart.{HasHash};
ghost use Rattle.mg_journal.specs.aids.Opening.{HasExtent, Measures};
ghost use Rattle.sha2.specs.declared.Sha256.{Sha256};

use crate::extent::Extent;
use crate::file_journal::FileJournal;
use crate::journal_file::JournalFile;
use crate::last_part::hash_last_part;
use std::io::{self, ErrorKind, Read};
use std::marker::Model;

/// The maximum number of bytes that are read from a file at once.
const CHUNK: usize = 64 * 1024;

/// A journal's file that is read before lines are appended to it.
///
/// Reading from this type returns the complete lines of the file. If the caller accepts them,
/// [`accept`](Opening::accept) removes a partial last line and returns the journal. Until then the file isn't changed.
#[derive(Drop)]
pub struct Opening<F: JournalFile> {
    file: F,
    extent: Extent,
    /// The number of bytes of the complete lines that were read.
    read: u64,
}

impl<F: JournalFile> Model for Opening<F> {
    ghost use Rattle.std.specs.Prelude.{◌≤◌};
    ghost use Rattle.mg_journal.specs.Opening.{IsSound};
    ghost use Rattle.mg_journal.specs.aids.Opened.{OpeningState};
    ghost use Rattle.mg_journal.specs.aids.Opening.{HasExtent};

    ghost Value = { OpeningState };

    ghost view = { λ o. record { file = F.file o.file; read = o.read } };

    ghost invariant = { λ o. HasExtent (F.file o.file) o.extent × IsSound (F.file o.file) × (o.read ≤ o.extent.whole) };
}

/// Reads the next bytes of a file, and adds them to the measured extent. Returns `None` at the end of the file.
fn measure_part<F: JournalFile>(
    extent: Extent,
    buffer: &mut [u8],
    file: &mut F,
) -> io::Result<Option<Extent>>
    requires room { 0 < length buffer.old }
    ensures same { F.file file.new ≡ F.file file.old }
    ensures value { Measures (F.file file.old) extent result }
{
    let n = match file.read(extent.all, buffer) {
        Ok(0) => return Ok(None),
        Ok(n) => n,
        Err(error) if error.kind() == ErrorKind::Interrupted => return Ok(Some(extent)),
        Err(error) => return Err(error),
    };
    match extent.after(&buffer[..n]) {
        Some(longer) => Ok(Some(longer)),
        None => Err(io::Error::from(ErrorKind::FileTooLarge)),
    }
}

/// Returns the extent of a file.
fn measure<F: JournalFile>(file: &mut F) -> io::Result<Extent>
    ensures same { F.file file.new ≡ F.file file.old }
    ensures extent { IfOk result (λ extent. HasExtent (F.file file.old) extent) }
{
    let mut buffer = [0; CHUNK];
    let mut extent = Extent::new();
    for _ in 0..u64::MAX {
        match measure_part(extent, &mut buffer, file) {
            Ok(Some(longer)) => extent = longer,
            Ok(None) => return Ok(extent),
            Err(error) => return Err(error),
        }
    }
    Err(io::Error::from(ErrorKind::TimedOut))
}

/// Removes a partial last line.
fn cut_partial<F: JournalFile>(extent: Extent, file: &mut F) -> io::Result<()>
    ensures journal { HasExtent (F.file file.old) extent → IsSound (F.file file.old) →
        OnOk result (IsJournal (F.file file.new) extent.whole false) }
    ensures text { HasExtent (F.file file.old) extent →
        OnOk result (text_in (F.file file.new) ≡ text_in (F.file file.old)) }
    ensures hash { (hasher : Sha256) → HasExtent (F.file file.old) extent →
        HasHash (F.file file.old) extent.whole hasher → OnOk result (IsHashed (F.file file.new) hasher false) }
{
    if extent.whole == extent.all {
        return Ok(());
    }
    file.cut(extent.whole)
}

impl<F: JournalFile> Opening<F> {
    /// Finds the complete lines of a file. Reads the whole file, and doesn't change it.
    pub fn new(mut file: F) -> io::Result<Self>
    where
        F: Drop,
        requires sound { IsSound (F.file file) }
        ensures file { IfOk result (λ o. o.file ≡ F.file file) }
        ensures start { IfOk result (λ o. o.read ≡ 0) }
    {
        match measure(&mut file) {
            Ok(extent) => Ok(Opening {
                file,
                extent,
                read: 0,
            }),
            Err(error) => Err(error),
        }
    }

    /// Returns the length, in bytes, of the partial last line, which a read never returns. It is 0 if the file ends in
    /// a line feed.
    pub fn partial(&self) -> u64
        ensures value { IfSome self.now.file.bytes (λ bytes. length (whole_lines bytes) + result ≡ length bytes) }
    {
        self.extent.all.saturating_sub(self.extent.whole)
    }

    /// Returns whether the file has a complete line.
    pub fn has_lines(&self) -> bool
        ensures none { result ≡ false → IfSome (text_in self.now.file) (λ text. text ≡ []) }
        ensures some { result ≡ true → IfSome (text_in self.now.file) (λ text. text ≢ []) }
    {
        self.extent.whole != 0
    }

    /// Copies the beginning of the file's complete lines into the buffer. Returns the number of bytes copied, which is
    /// 0 if there are no complete lines. The next read is not affected.
    pub fn peek(&mut self, buffer: &mut [u8]) -> io::Result<usize>
        ensures same { self.new ≡ self.old }
        ensures within { IfOk result (λ n. n ≤ length buffer.new) }
        ensures front { IfOk result (λ n. (rest : Option (List ℕ))
            × Consumes (text_in self.old.file) rest (take n buffer.new)) }
    {
        let most = self.extent.whole.min(buffer.len() as u64) as usize;
        if most == 0 {
            return Ok(0);
        }
        self.file.read(0, &mut buffer[..most])
    }

    /// Copies the beginning of the partial last line into the buffer. Returns the number of bytes copied, which is 0 if
    /// there is no partial line. The next read is not affected.
    pub fn peek_partial(&mut self, buffer: &mut [u8]) -> io::Result<usize>
        ensures same { self.new ≡ self.old }
        ensures within { IfOk result (λ n. n ≤ length buffer.new) }
        ensures front { IfOk result (λ n. IfSome self.old.file.bytes (λ bytes.
            StartsWith (drop (length (whole_lines bytes)) bytes) (take n buffer.new))) }
    {
        let most = self.partial().min(buffer.len() as u64) as usize;
        if most == 0 {
            return Ok(0);
        }
        self.file.read(self.extent.whole, &mut buffer[..most])
    }

    /// Goes back to the first line, which the next read returns again.
    pub fn rewind(&mut self)
        ensures file { self.new.file ≡ self.old.file }
        ensures front { self.new.read ≡ 0 }
    {
        self.read = 0;
    }

    /// Removes a partial last line. Returns the journal, ready for appends. Reads the file's last part again, for the
    /// next seal.
    pub fn accept(self) -> io::Result<FileJournal<F>>
    where
        F: Drop,
        ensures text { IfOk result (λ j. j.text ≡ text_in self.file) }
        ensures works { IfOk result (λ j. j.is_broken ≡ false) }
    {
        let mut file = self.file;
        let extent = self.extent;
        let chain = match hash_last_part(extent.whole, &mut file) {
            Ok(chain) => chain,
            Err(error) => return Err(error),
        };
        match cut_partial(extent, &mut file) {
            Ok(()) => Ok(FileJournal::new(file, extent.whole, chain)),
            Err(error) => Err(error),
        }
    }
}

impl<F: JournalFile> Read for Opening<F> {
    ghost remaining = { left_to_read };

    fn read(&mut self, buffer: &mut [u8]) -> io::Result<usize>
        ensures bound { ReadsAtMost result buffer.new }
        ensures bytes { ReadConsumes (left_to_read self.old) (left_to_read self.new) result buffer.new }
        ensures file { self.new.file ≡ self.old.file }
    {
        let left = self.extent.whole - self.read;
        let most = left.min(buffer.len() as u64) as usize;
        if most == 0 {
            return Ok(0);
        }
        match self.file.read(self.read, &mut buffer[..most]) {
            // The file has become shorter since it was measured.
            Ok(0) => Err(io::Error::from(ErrorKind::UnexpectedEof)),
            Ok(n) => {
                self.read += n as u64;
                Ok(n)
            }
            Err(error) => Err(error),
        }
    }
}
