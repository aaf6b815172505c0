use crate::pipe::Pipe;
use crate::readiness::Readiness;
use std::alloc::Global;
use std::io::{self, Write};
use std::net::Net;
use std::os::fd::AsRawFd;

/// A writer on a descriptor, such as standard output. The system reports whether a write would wait.
///
/// A regular file or `/dev/null` is always ready: a write to it goes to the page cache. A terminal may report that it
/// is ready with less than 4,096 bytes free, so a write to it can wait.
#[derive(Drop)]
pub struct SystemPipe<W> {
    writer: W,
    readiness: Readiness,
}

impl<W: Write + AsRawFd + Drop> SystemPipe<W> {
    pub fn new<N: Net>(net: &N, alloc: Global, writer: W) -> io::Result<Self> {
        let readiness = Readiness::new(net, alloc, writer.as_raw_fd())?;
        Ok(SystemPipe { writer, readiness })
    }
}

impl<W: Write> Pipe for SystemPipe<W> {
    fn is_ready(&mut self) -> bool {
        self.readiness.is_writable()
    }

    fn write(&mut self, bytes: &[u8]) -> io::Result<usize> {
        self.writer.write(bytes)
    }
}
