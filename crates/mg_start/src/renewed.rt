//! Journals that were renewed: after the title, they have a checkpoint.

ghost use Rattle.std.specs.Prelude.{◌≡◌, ◌≢◌, [], None, Some, IfOk, IfSome, OnOk};
ghost use Rattle.std.specs.Io.KnownBytes.{Consumes};
ghost use Rattle.mg_journal.specs.aids.Opened.{text_in};
ghost use Rattle.mg_service.specs.Title.{title_line};
ghost use Rattle.mg_start.specs.aids.Starting.{CanResume, IsRestored};

use crate::faults::{read_fault, restore_fault, run_fault};
use crate::front::FRONT;
use crate::journal_fault::JournalFault;
use crate::journal_reader::JournalReader;
use crate::reading::{FileKey, Reading};
use crate::restored::Restored;
use crate::resumed::Resumed;
use mg_checkpoint::{begins_checkpoint, ends_checkpoint, restore};
use mg_core::{Config, Core, resume_from};
use mg_journal::{JournalFile, Opening};
use mg_service::title_line_of;
use std::alloc::Global;
use std::io::{BufRead, BufReader, Read};

/// The number of bytes after which no more lines of a checkpoint are read. A checkpoint with all terminations and kept
/// replies has about two million bytes.
const CHECKPOINT_LIMIT: usize = 4_194_304;

/// Returns whether a journal begins with the title of this configuration, and then with a line that begins like the
/// first line of a checkpoint.
pub(crate) fn is_renewed<F: JournalFile>(
    config: &Config,
    opening: &mut Opening<F>,
) -> Result<bool, JournalFault>
    ensures same { opening.new ≡ opening.old }
{
    let mut buffer = [0; FRONT];
    let n = match opening.peek(&mut buffer) {
        Ok(n) => n,
        Err(error) => return Err(JournalFault::Read(error)),
    };
    let title = title_line_of(config);
    match buffer[..n].strip_prefix(title.as_slice()) {
        Some(behind) => Ok(begins_checkpoint(behind)),
        None => Ok(false),
    }
}

/// Reads the title's line.
fn read_title<R: BufRead>(alloc: Global, title: &[u8], reader: &mut R) -> Result<(), JournalFault>
    ensures read { OnOk result (Consumes (R.remaining reader.old) (R.remaining reader.new) title.now) }
{
    let mut line = Vec::new(alloc);
    if let Err(error) = reader.read_until(b'\n', &mut line) {
        return Err(read_fault(error));
    }
    if line.as_slice() == title {
        Ok(())
    } else {
        Err(JournalFault::NoTitle)
    }
}

/// Reads the lines of a checkpoint up to its last line. If that is missing, reads to the end of the journal, or until
/// the lines are longer than any checkpoint.
fn read_checkpoint<R: BufRead>(alloc: Global, reader: &mut R) -> Result<Vec<u8>, JournalFault>
    ensures read { IfOk result (λ text. Consumes (R.remaining reader.old) (R.remaining reader.new) text.items) }
{
    let mut text = Vec::new(alloc);
    for _ in 0..CHECKPOINT_LIMIT {
        let start = text.len();
        match reader.read_until(b'\n', &mut text) {
            Ok(0) => return Ok(text),
            Ok(_) => {}
            Err(error) => return Err(read_fault(error)),
        }
        if text.len() > CHECKPOINT_LIMIT || ends_checkpoint(&text[start..]) {
            return Ok(text);
        }
    }
    Ok(text)
}

/// Returns the number of line feeds in a text.
fn feeds_in(text: &[u8]) -> u64 {
    let mut feeds: u64 = 0;
    for byte in text {
        if *byte == b'\n' {
            feeds = feeds.saturating_add(1);
        }
    }
    feeds
}

/// Reads the title and the checkpoint of a journal, and restores the gateway.
fn restore_front<R: BufRead>(
    alloc: Global,
    config: Config,
    reader: &mut R,
) -> Result<Restored, JournalFault>
    ensures restored { IfOk result (λ r.
        IsRestored config (R.remaining reader.old) (R.remaining reader.new) r.core.state) }
{
    read_title(alloc, title_line_of(&config).as_slice(), reader)?;
    let text = read_checkpoint(alloc, reader)?;
    match restore(alloc, config, text.as_slice()) {
        Ok(core) => Ok(Restored {
            core,
            lines: feeds_in(text.as_slice()).saturating_add(1),
        }),
        Err(fault) => Err(restore_fault(fault)),
    }
}

/// Restores the gateway, and runs the events after the checkpoint without sending anything.
fn run_behind<R: Read>(
    alloc: Global,
    config: Config,
    journal: &mut R,
    reader: &mut JournalReader,
) -> Result<Core, JournalFault>
    requires times { reader.old.timeline ≡ record { start = None; ticks = 0 } }
    requires reached { reader.old.fence.reached ≡ 0 }
    requires lines { IfSome (R.remaining journal.old) (λ text. text ≢ []) }
    ensures resumed { IfOk result (λ core. CanResume (R.remaining journal.old) (Some reader.new.timeline) config
        core.state reader.new.fence.reached) }
{
    let mut buffered = match BufReader::new(alloc, journal) {
        Ok(buffered) => buffered,
        Err(error) => return Err(read_fault(error)),
    };
    let restored = restore_front(alloc, config, &mut buffered)?;
    match resume_from(alloc, restored.core, &mut buffered, reader) {
        Ok(core) => Ok(core),
        Err(fault) => Err(run_fault(restored.lines, fault)),
    }
}

/// Runs a journal that was renewed, without sending anything: restores the gateway from the checkpoint, and runs the
/// events after it.
pub(crate) fn run_renewed<F: JournalFile, K: FileKey>(
    alloc: Global,
    config: Config,
    opening: Opening<F>,
) -> Result<Resumed<F>, JournalFault>
where
    F: Drop,
    requires front { opening.read ≡ 0 }
    requires file { opening.file ≡ K.file }
    requires lines { IfSome (text_in opening.file) (λ text. text ≢ []) }
    ensures file { IfOk result (λ r. r.opening.file ≡ K.file) }
    ensures resumed { IfOk result (λ r. CanResume (text_in opening.file) (Some r.reader.timeline) config r.core.state
        r.reader.fence.reached) }
{
    let mut reading = Reading::<F, K>::new(opening);
    let mut reader = JournalReader::new(alloc);
    let core = run_behind(alloc, config, &mut reading, &mut reader)?;
    Ok(Resumed {
        opening: reading.into_opening(),
        core,
        reader,
    })
}
