use mg_outlet::{Outlet, Pipe};
use std::io::{self, Write};

/// A gateway's output, which waits for its reader only in `finish`. If the output ends because its reader is too slow,
/// the operator is notified once.
#[derive(Drop)]
pub struct LiveOutput<P, E> {
    outlet: Outlet<P>,
    errors: E,
    has_reported: bool,
}

impl<P: Pipe, E: Write> LiveOutput<P, E> {
    pub fn new(outlet: Outlet<P>, errors: E) -> Self {
        LiveOutput {
            outlet,
            errors,
            has_reported: false,
        }
    }

    /// Writes everything in the queue. Unlike the other calls, this one waits for the reader.
    pub fn finish(&mut self) -> io::Result<()> {
        self.outlet.finish()
    }

    /// If the output has ended since the last call, reports this to the operator.
    fn report_end(&mut self) {
        if self.outlet.has_ended() && !self.has_reported {
            self.has_reported = true;
            let line = b"standard output ended: its reader is too slow\n";
            let _ = self.errors.write_all(line.as_slice());
            let _ = self.errors.flush();
        }
    }
}

impl<P: Pipe, E: Write> Write for LiveOutput<P, E> {
    fn write(&mut self, text: &[u8]) -> io::Result<usize> {
        let count = self.outlet.write(text)?;
        self.report_end();
        Ok(count)
    }

    fn flush(&mut self) -> io::Result<()> {
        self.outlet.flush()
    }
}
