ghost use Rattle.std.specs.Prelude.{◌≡◌};
ghost use Rattle.mg_journal.specs.JournalFile.{FileState, unknown};

use mg_journal::{JournalFile, Opening};
use std::io::{self, Read};
use std::marker::{Brand, PhantomData};

/// Represents, in proofs, what is known about the file of a journal.
pub(crate) trait FileKey {
    ghost file: { FileState };
}

impl FileKey for Brand {
    ghost file = { unknown };
}

/// A journal that is being read. What is known about its file stays the same.
#[derive(Drop)]
pub(crate) struct Reading<F: JournalFile, K: FileKey> {
    opening: Opening<F>,
    of: PhantomData<K>,
    ghost same: { opening.file ≡ K.file },
}

impl<F: JournalFile, K: FileKey> Reading<F, K> {
    pub(crate) fn new(opening: Opening<F>) -> Self
    where
        F: Drop,
        requires file { opening.file ≡ K.file }
        ensures opening { result.opening ≡ opening }
    {
        Reading {
            opening,
            of: PhantomData,
        }
    }

    /// Returns the journal.
    pub(crate) fn into_opening(self) -> Opening<F>
    where
        F: Drop,
        ensures file { result.file ≡ K.file }
    {
        self.opening
    }
}

impl<F: JournalFile, K: FileKey> Read for Reading<F, K> {
    ghost use Rattle.mg_journal.specs.aids.Opened.{left_to_read};

    ghost remaining = { λ r. left_to_read r.opening };

    fn read(&mut self, buffer: &mut [u8]) -> io::Result<usize> {
        self.opening.read(buffer)
    }
}
