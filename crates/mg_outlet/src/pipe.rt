ghost use Rattle.std.specs.Prelude.{◌≤◌, [], ◌∷◌, length, List, Option, None, IfOk};
ghost use Rattle.std.specs.Result.{result_ok};
ghost use Rattle.mg_outlet.specs.Passing.{Asked, Continues, PipeCall, Wrote};

use std::io;

/// A writer that reports whether a write would wait for its reader.
pub trait Pipe {
    /// All calls so far, in order, if they are known.
    ghost calls: { Self → Option (List PipeCall) } = { λ _. None };

    /// Returns whether 4,096 bytes can be written now without waiting.
    fn is_ready(&mut self) -> bool
        ensures asked { Continues (calls self.old) (calls self.new) (Asked result ∷ []) };

    /// Writes these bytes or a prefix of them, and returns the number of bytes written.
    fn write(&mut self, bytes: &[u8]) -> io::Result<usize>
        ensures within { IfOk result (λ n. n ≤ length bytes.now) }
        ensures wrote { Continues (calls self.old) (calls self.new) (Wrote bytes.now (result_ok result) ∷ []) };
}
