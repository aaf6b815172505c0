ghost use Rattle.mg_journal.specs.aids.Appending.{CutsBack, IsReplaced, Puts, Writes};

use crate::append_fault::AppendFault;
use crate::durability::Durability;
use crate::failed_append::FailedAppend;
use crate::journal_file::JournalFile;
use std::io::{self, ErrorKind};

/// Writes all of `text`. If a write fails, only a prefix of the text was written.
fn write_whole<F: JournalFile>(text: &[u8], file: &mut F) -> io::Result<()>
    ensures value { Writes text.now (F.file file.old) (F.file file.new) result }
{
    let mut at = 0;
    for _ in 0..u64::MAX {
        if at == text.len() {
            return Ok(());
        }
        match file.write(&text[at..]) {
            Ok(0) => return Err(io::Error::from(ErrorKind::WriteZero)),
            Ok(n) => at += n,
            Err(error) if error.kind() == ErrorKind::Interrupted => {}
            Err(error) => return Err(error),
        }
    }
    Err(io::Error::from(ErrorKind::TimedOut))
}

/// Truncates a file to the length that it had before a write, which failed with `error`.
fn cut_back<F: JournalFile>(len: u64, error: io::Error, file: &mut F) -> FailedAppend
    ensures value { CutsBack len (F.file file.old) (F.file file.new) result.fault }
{
    match file.cut(len) {
        Ok(()) => FailedAppend {
            fault: AppendFault::Refused,
            error,
        },
        Err(error) => FailedAppend {
            fault: AppendFault::Broken,
            error,
        },
    }
}

/// Writes lines at the end of a file of `len` bytes.
pub(crate) fn put_lines<F: JournalFile>(
    lines: &[u8],
    len: u64,
    durability: Durability,
    file: &mut F,
) -> Result<(), FailedAppend>
    ensures value { Puts lines.now len durability (F.file file.old) (F.file file.new) result }
{
    if let Err(error) = write_whole(lines, file) {
        return Err(cut_back(len, error, file));
    }
    if durability == Durability::Written {
        return Ok(());
    }
    let synced = file.sync();
    match synced {
        Ok(()) => Ok(()),
        Err(error) => Err(FailedAppend {
            fault: AppendFault::Broken,
            error,
        }),
    }
}

/// Replaces a file by a new one with this text. The old file keeps a name that ends in the suffix.
pub(crate) fn replace_by<F: JournalFile + Drop>(
    text: &[u8],
    suffix: &str,
    durability: Durability,
    file: &mut F,
) -> io::Result<()>
    ensures value { IsReplaced text.now durability (F.file file.old) (F.file file.new) result }
{
    let mut next = file.create_next()?;
    if let Err(failed) = put_lines(text, 0, durability, &mut next) {
        return Err(failed.error);
    }
    file.keep(suffix)?;
    file.replace(next)
}
