//! Theorems about the text that an outlet's reader receives.
//!
//! The functions do nothing: their contracts are the theorems. The stream of an outlet consists of the bytes that the
//! pipe took, followed by the queue.

ghost use Rattle.std.specs.Prelude.{◌≡◌, ℕ, List, [], ◌++◌, if◌then◌else◌};
ghost use Rattle.mg_outlet.specs.Passing.{Continues};
ghost use Rattle.mg_outlet.specs.Outlet.{BeginsWithStream, IsFlushed, IsWritten, drops, overflow, stream};

use crate::outlet::Outlet;
use crate::overflow::Overflow;
use crate::pipe::Pipe;

/// A flush keeps the stream: no byte is lost, written twice or reordered.
pub fn a_flush_keeps_the_stream<P: Pipe>(before: &Outlet<P>, after: &Outlet<P>)
    ensures { (most : ℕ) → IsFlushed P.calls most before.now after.now →
        Continues (stream P.calls before.now) (stream P.calls after.now) [] }
{}

/// A write appends the text to the stream, or leaves the stream unchanged if the text is dropped.
pub fn a_write_appends_to_the_stream<P: Pipe>(before: &Outlet<P>, after: &Outlet<P>)
    ensures { (text : List ℕ) → (written : IsWritten P.calls text before.now after.now) →
        Continues (stream P.calls before.now) (stream P.calls after.now)
        (if drops before.now written.rest text then [] else text) }
{}

/// Until an outlet with `Overflow::End` drops text, the reader receives everything that was written. After that, the
/// reader receives a prefix: only the end is dropped.
pub fn the_reader_gets_a_prefix<P: Pipe>(before: &Outlet<P>, after: &Outlet<P>)
    ensures flush { (all : List ℕ) (most : ℕ) → IsFlushed P.calls most before.now after.now →
        BeginsWithStream P.calls all before.now → BeginsWithStream P.calls all after.now }
    ensures write { (all text : List ℕ) → IsWritten P.calls text before.now after.now →
        overflow before.now ≡ Overflow.End → BeginsWithStream P.calls all before.now →
        BeginsWithStream P.calls (all ++ text) after.now }
{}
