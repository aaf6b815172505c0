ghost use Rattle.std.specs.Prelude.{IfOk};
ghost use Rattle.mg_journal.specs.Opening.{IsSound};
ghost use Rattle.mg_host.specs.declared.host_call.HostCall.TheVariants.{OpenJournal};
ghost use Rattle.mg_host.specs.HostCalls.{OpensFile};

use crate::tells::Tells;
use mg_journal::JournalFile;
use std::io;

/// A host that opens the files of journals.
pub trait Journals: Tells {
    /// The file of a journal.
    type File: JournalFile + Drop;

    /// Opens a journal's file and locks it. Creates the file if it doesn't exist. Fails with `WouldBlock` if another
    /// program has locked it.
    fn open_journal(&mut self, path: &str) -> io::Result<Self::File>
        ensures opened { OpensFile (OpenJournal path.now) (λ file. (Self.File.file file).bytes) (Self.calls self.old)
            (Self.calls self.new) result }
        ensures sound { IfOk result (λ file. IsSound (Self.File.file file)) };
}
