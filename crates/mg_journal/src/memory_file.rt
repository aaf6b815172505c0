ghost use Rattle.std.specs.Prelude.{◌≡◌, ◌≤◌, ◌++◌, min, [], length, take, drop, Some};
ghost use Rattle.mg_journal.specs.JournalFile.{FileState};

use crate::call_counts::CallCounts;
use crate::fault_effect::FaultEffect;
use crate::file_call::FileCall;
use crate::injected_fault::InjectedFault;
use crate::journal_file::JournalFile;
use std::io;

/// A file in memory, for tests. It can inject faults: chosen calls fail or stop early.
#[derive(Drop)]
pub struct MemoryFile {
    bytes: Vec<u8>,
    /// The number of bytes that are on the disk.
    synced: usize,
    faults: Vec<InjectedFault>,
    counts: CallCounts,
    ghost front: { synced ≤ length bytes.items },
}

/// Copies as much of `from` as fits. Returns how many bytes were copied.
fn copy_front(from: &[u8], to: &mut [u8]) -> usize
    ensures count { result ≡ min (length from.now) (length to.old) }
    ensures copied { to.new ≡ take result from.now ++ drop result to.old }
{
    let n = from.len().min(to.len());
    to[..n].copy_from_slice(&from[..n]);
    n
}

impl MemoryFile {
    /// Creates a file that holds these bytes. None of them is on the disk yet.
    pub fn new(bytes: Vec<u8>, faults: Vec<InjectedFault>) -> Self
        ensures bytes { result.bytes.items ≡ bytes.items }
        ensures synced { result.synced ≡ 0 }
    {
        MemoryFile {
            bytes,
            synced: 0,
            faults,
            counts: CallCounts::default(),
        }
    }

    /// Returns the bytes.
    pub fn bytes(&self) -> &[u8]
        ensures value { result.now ≡ self.now.bytes.items }
    {
        self.bytes.as_slice()
    }

    /// Returns the bytes that a sync has put on the disk.
    pub fn synced(&self) -> &[u8]
        ensures value { result.now ≡ take self.now.synced self.now.bytes.items }
    {
        &self.bytes.as_slice()[..self.synced]
    }

    /// Begins a call. Returns the number of bytes after which the call stops, or the error that is injected into it.
    fn begin(&mut self, call: FileCall) -> io::Result<usize>
        ensures bytes { self.new.bytes ≡ self.old.bytes }
        ensures synced { self.new.synced ≡ self.old.synced }
    {
        let number = self.counts.count(call);
        let fault = self
            .faults
            .iter()
            .find(|fault| fault.call == call && fault.number == number);
        match fault {
            Some(fault) => match fault.effect {
                FaultEffect::Fail(kind) => Err(io::Error::from(kind)),
                FaultEffect::Stop(most) => Ok(most),
            },
            None => Ok(usize::MAX),
        }
    }
}

impl JournalFile for MemoryFile {
    ghost file = { λ f. record { bytes = Some f.bytes.items; synced = Some (take f.synced f.bytes.items) } };

    fn read(&mut self, at: u64, buffer: &mut [u8]) -> io::Result<usize> {
        let most = self.begin(FileCall::Read)?.max(1).min(buffer.len());
        let at = (at as usize).min(self.bytes.len());
        Ok(copy_front(&self.bytes.as_slice()[at..], &mut buffer[..most]))
    }

    fn write(&mut self, bytes: &[u8]) -> io::Result<usize> {
        let most = self.begin(FileCall::Write)?.min(bytes.len());
        match self.bytes.extend_from_slice(&bytes[..most]) {
            Ok(()) => Ok(most),
            Err(_) => Err(io::Error::from(io::ErrorKind::OutOfMemory)),
        }
    }

    fn cut(&mut self, len: u64) -> io::Result<()> {
        self.begin(FileCall::Cut)?;
        let len = len as usize;
        self.synced = self.synced.min(len);
        self.bytes.truncate(len);
        Ok(())
    }

    fn sync(&mut self) -> io::Result<()> {
        self.begin(FileCall::Sync)?;
        self.synced = self.bytes.len();
        Ok(())
    }

    fn is_there(&mut self, len: u64) -> io::Result<bool> {
        Ok(self.bytes.len() as u64 == len)
    }

    fn create_next(&mut self) -> io::Result<Self> {
        self.begin(FileCall::CreateNext)?;
        let bytes = Vec::new(*self.bytes.allocator());
        Ok(MemoryFile::new(bytes, Vec::new(*self.bytes.allocator())))
    }

    fn keep(&mut self, _suffix: &str) -> io::Result<()> {
        self.begin(FileCall::Keep)?;
        Ok(())
    }

    fn replace(&mut self, next: Self) -> io::Result<()> {
        self.begin(FileCall::Replace)?;
        self.bytes = next.bytes;
        self.synced = next.synced;
        Ok(())
    }
}
