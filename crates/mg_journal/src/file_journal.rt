ghost use Rattle.std.specs.Prelude.{◌≡◌, false, IfSome};
ghost use Rattle.sha2.specs.Hashers.{Holds256};
ghost use Rattle.mg_chain.specs.Seals.{last_part};
ghost use Rattle.mg_journal.specs.aids.Appending.{IsHashed, IsJournal, journal_in};

use crate::append_fault::AppendFault;
use crate::durability::Durability;
use crate::journal::Journal;
use crate::journal_file::JournalFile;
use crate::writing::{put_lines, replace_by};
use mg_chain::{Chain, END};
use std::io;
use std::marker::Model;

/// A journal in a file. If a write fails, the file is truncated to the lines that it had before. If that fails, or if a
/// sync fails, the journal breaks.
#[derive(Drop)]
pub struct FileJournal<F: JournalFile> {
    file: F,
    /// The length of the file, in bytes, unless the journal is broken.
    len: u64,
    is_broken: bool,
    last_error: Option<io::Error>,
    /// The hash of the file's last part, unless the journal is broken.
    chain: Chain,
}

impl<F: JournalFile> Model for FileJournal<F> {
    ghost use Rattle.mg_journal.specs.Journal.{JournalState};
    ghost use Rattle.mg_journal.specs.aids.Appending.{IsHashed, IsJournal, journal_in};

    ghost Value = { JournalState };

    ghost view = { λ j. journal_in (F.file j.file) j.is_broken };

    ghost invariant = { λ j. IsJournal (F.file j.file) j.len j.is_broken
        × IsHashed (F.file j.file) j.chain j.is_broken };
}

/// Returns the hash of the last part of a text.
fn chain_of(text: &[u8]) -> Chain
    ensures value { Holds256 result (last_part text.now) }
{
    let mut chain = Chain::new();
    chain.add(text);
    chain
}

/// Returns the fault of a call that changed nothing.
fn fault_of(is_broken: bool) -> AppendFault {
    if is_broken {
        AppendFault::Broken
    } else {
        AppendFault::Refused
    }
}

impl<F: JournalFile> FileJournal<F> {
    /// Creates a journal that continues a file of complete lines, whose last part has this hash.
    pub(crate) fn new(file: F, len: u64, chain: Chain) -> Self
        requires whole { IsJournal (F.file file) len false }
        requires hashed { IsHashed (F.file file) chain false }
        ensures value { result ≡ journal_in (F.file file) false }
    {
        FileJournal {
            file,
            len,
            is_broken: false,
            last_error: None,
            chain,
        }
    }

    /// Returns the file.
    pub fn file(&self) -> &F
        ensures value { self.now ≡ journal_in (F.file result.now) self.now.is_broken }
    {
        &self.file
    }

    /// Returns the most recent file error that made an append or a renewal fail, or `None` if there was no such error.
    pub fn last_error(&self) -> Option<&io::Error> {
        self.last_error.as_ref()
    }
}

impl<F: JournalFile + Drop> Journal for FileJournal<F> {
    ghost journal = { λ j. j };

    fn append(&mut self, lines: &[u8], durability: Durability) -> Result<(), AppendFault> {
        if self.is_broken {
            return Err(AppendFault::Broken);
        }
        let Some(len) = self.len.checked_add(lines.len() as u64) else {
            return Err(AppendFault::Refused);
        };
        match put_lines(lines, self.len, durability, &mut self.file) {
            Ok(()) => {
                self.len = len;
                self.chain.add(lines);
                Ok(())
            }
            Err(failed) => {
                let is_final = failed.fault.is_final();
                self.is_broken = is_final;
                self.last_error = Some(failed.error);
                Err(failed.fault)
            }
        }
    }

    fn size(&self) -> u64 {
        if self.is_broken { 0 } else { self.len }
    }

    fn is_intact(&mut self) -> bool {
        !self.is_broken && self.file.is_there(self.len).unwrap_or(true)
    }

    fn renew(
        &mut self,
        text: &[u8],
        suffix: &str,
        durability: Durability,
    ) -> Result<(), AppendFault> {
        match replace_by(text, suffix, durability, &mut self.file) {
            Ok(()) => {
                self.len = text.len() as u64;
                self.is_broken = false;
                self.chain = chain_of(text);
                Ok(())
            }
            Err(error) => {
                self.last_error = Some(error);
                Err(fault_of(self.is_broken))
            }
        }
    }

    fn seal_end(&self) -> [u8; END] {
        self.chain.seal_end()
    }
}
