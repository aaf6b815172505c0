use std::alloc::Global;
use std::io::{self, Error, ErrorKind, Write};

/// A writer that takes at most a given number of bytes per call, and fails after a given number of calls.
#[derive(Drop)]
pub struct FailingWriter {
    pub written: Vec<u8>,
    piece: usize,
    calls: usize,
}

impl FailingWriter {
    pub fn new(alloc: Global, piece: usize, calls: usize) -> Self {
        FailingWriter {
            written: Vec::new(alloc),
            piece,
            calls,
        }
    }
}

impl Write for FailingWriter {
    fn write(&mut self, buf: &[u8]) -> io::Result<usize> {
        if self.calls == 0 {
            return Err(Error::from(ErrorKind::Other));
        }
        self.calls -= 1;
        let (taken, _) = buf.split_at(buf.len().min(self.piece));
        self.written.extend_from_slice(taken)?;
        Ok(taken.len())
    }

    fn flush(&mut self) -> io::Result<()> {
        Ok(())
    }
}
