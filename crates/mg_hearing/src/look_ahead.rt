ghost use Rattle.std.specs.Prelude.{IfSome};
ghost use Rattle.std.specs.Io.{StartsWith};
ghost use Rattle.std.specs.Io.KnownBytes.{Keeps};

use std::io::{self, Read};

/// A reader whose next bytes can be seen before they are read.
pub trait LookAhead: Read {
    /// Returns the next bytes, as far as they were looked at.
    fn seen(&self) -> &[u8]
        ensures next { IfSome (Self.remaining self.now) (λ text. StartsWith text result.now) };

    /// Looks at one more byte. Returns whether there may be more bytes to see: not at the end, nor if too many were seen
    /// already. Whatever the result, all bytes can still be read.
    fn look(&mut self) -> io::Result<bool>
        ensures unread { Keeps (Self.remaining self.old) (Self.remaining self.new) };
}
