ghost use Rattle.std.specs.Fmt.{option_append};
ghost use Rattle.std.specs.Prelude.{Some};

use crate::look_ahead::LookAhead;
use arrayvec::ArrayVec;
use std::io::{self, ErrorKind, Read};

/// The maximum number of bytes that can be seen before they are read: enough for a title and the first words of a
/// checkpoint.
const LIMIT: usize = 1024;

/// A reader that keeps the bytes that were seen until they are read.
#[derive(Drop)]
pub struct Ahead<R> {
    seen: ArrayVec<u8, LIMIT>,
    inner: R,
}

impl<R> Ahead<R> {
    /// Creates a reader with the bytes of another reader.
    pub fn new(inner: R) -> Self {
        Ahead {
            seen: ArrayVec::new(),
            inner,
        }
    }
}

impl<R: Read> Read for Ahead<R> {
    ghost remaining = { λ a. option_append (Some a.seen.items) (R.remaining a.inner) };

    fn read(&mut self, buffer: &mut [u8]) -> io::Result<usize> {
        if self.seen.is_empty() {
            return self.inner.read(buffer);
        }
        let mut unread = self.seen.as_slice();
        let n = unread.read(buffer)?;
        let mut left = ArrayVec::new();
        let _ = left.try_extend_from_slice(unread);
        self.seen = left;
        Ok(n)
    }
}

impl<R: Read> LookAhead for Ahead<R> {
    fn seen(&self) -> &[u8] {
        self.seen.as_slice()
    }

    fn look(&mut self) -> io::Result<bool> {
        if self.seen.is_full() {
            return Ok(false);
        }
        let mut buffer = [0];
        match self.inner.read(&mut buffer) {
            Ok(n) => {
                let _ = self.seen.try_extend_from_slice(&buffer[..n]);
                Ok(n == 1)
            }
            Err(error) if error.kind() == ErrorKind::Interrupted => Ok(true),
            Err(error) => Err(error),
        }
    }
}
