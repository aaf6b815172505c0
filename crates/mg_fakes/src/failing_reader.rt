use std::io::{self, Cursor, Error, ErrorKind, Read};

/// A reader that returns at most a given number of bytes per call, and fails after a given number of calls.
#[derive(Drop)]
pub struct FailingReader<'a> {
    pub inner: Cursor<&'a [u8]>,
    pub piece: usize,
    pub calls: usize,
}

impl Read for FailingReader<'_> {
    fn read(&mut self, buf: &mut [u8]) -> io::Result<usize> {
        if self.calls == 0 {
            return Err(Error::from(ErrorKind::Other));
        }
        self.calls -= 1;
        let taken = buf.len().min(self.piece);
        self.inner.read(&mut buf[..taken])
    }
}
