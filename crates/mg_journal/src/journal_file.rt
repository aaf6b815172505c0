ghost use Rattle.std.specs.Prelude.{◌≡◌, IfOk};
ghost use Rattle.mg_journal.specs.JournalFile.{FileState, Changes, ReadsAt, WritesSome, cut_to, emptied, synced, unknown};

use std::io;

/// The file operations that a journal needs.
pub trait JournalFile {
    /// The known state of the file.
    ghost file: { Self → FileState } = { λ _. unknown };

    /// Reads bytes at an offset. Returns how many bytes were read, or 0 if the file ends there.
    fn read(&mut self, at: u64, buffer: &mut [u8]) -> io::Result<usize>
        ensures value { ReadsAt at buffer.new (file self.old) (file self.new) result };

    /// Writes bytes at the end of the file. Returns how many bytes were written.
    fn write(&mut self, bytes: &[u8]) -> io::Result<usize>
        ensures value { WritesSome bytes.now (file self.old) (file self.new) result };

    /// Truncates the file to this length, if the file is longer.
    fn cut(&mut self, len: u64) -> io::Result<()>
        ensures value { Changes (cut_to len) (file self.old) (file self.new) result };

    /// Waits until the whole file is on the disk.
    fn sync(&mut self) -> io::Result<()>
        ensures value { Changes synced (file self.old) (file self.new) result };

    /// Returns whether the file's path still leads to this file, and the file has this length, in bytes.
    fn is_there(&mut self, len: u64) -> io::Result<bool>
        ensures same { file self.new ≡ file self.old };

    /// Creates an empty file that can replace this one.
    fn create_next(&mut self) -> io::Result<Self>
        ensures same { file self.new ≡ file self.old }
        ensures empty { IfOk result (λ next. file next ≡ emptied (file self.old)) };

    /// Gives the file an additional name, which ends in this suffix. So the file still exists after it is replaced.
    fn keep(&mut self, suffix: &str) -> io::Result<()>
        ensures same { file self.new ≡ file self.old };

    /// Replaces this file by the next one, at once: whoever opens the file's path finds either this file or the next one.
    fn replace(&mut self, next: Self) -> io::Result<()>
        ensures value { Changes (λ _. file next) (file self.old) (file self.new) result };
}
