ghost use Rattle.std.specs.Prelude.{◌≡◌, [], ◌∷◌, ◌++◌, ℕ, List, Option, MatchResult, OnOk};
ghost use Rattle.mg_outlet.specs.Passing.{AreOldest, Continues, PipeCall, Passes, TookNone, TookSome, Wrote, taken_in};

use crate::pipe::Pipe;
use circular_buffer::HeapCircularBuffer;
use std::io::{self, ErrorKind};

/// The maximum number of bytes that an outlet writes at once.
pub const CHUNK: usize = 4096;

/// Passes on at most this many chunks of a queue, as long as the pipe is ready and the queue isn't empty.
pub(crate) fn pass_on<P: Pipe>(
    queue: &mut HeapCircularBuffer<u8>,
    pipe: &mut P,
    chunks: u16,
) -> io::Result<()>
    ensures passes { (calls : List PipeCall) × Continues (P.calls pipe.old) (P.calls pipe.new) calls
        × Passes chunks queue.old.items queue.new.items calls }
    ensures limit { queue.new.capacity ≡ queue.old.capacity }
{
    for _passed in 0..chunks {
        if queue.is_empty() {
            return Ok(());
        }
        if !pipe.is_ready() {
            return Ok(());
        }
        match pass_chunk(queue, pipe) {
            Ok(()) => {}
            Err(e) if is_later(&e) => return Ok(()),
            Err(e) => return Err(e),
        }
    }
    Ok(())
}

/// Returns whether a failed write may be tried again later.
fn is_later(error: &io::Error) -> bool {
    matches!(error.kind(), ErrorKind::Interrupted | ErrorKind::WouldBlock)
}

/// Passes on a whole queue. Waits for the reader if necessary.
pub(crate) fn pass_all<P: Pipe>(queue: &mut HeapCircularBuffer<u8>, pipe: &mut P) -> io::Result<()>
    ensures passes { (calls : List PipeCall) × Continues (P.calls pipe.old) (P.calls pipe.new) calls
        × (queue.old.items ≡ taken_in calls ++ queue.new.items) }
    ensures empty { OnOk result (queue.new.items ≡ []) }
    ensures limit { queue.new.capacity ≡ queue.old.capacity }
{
    for _ in 0..u64::MAX {
        if queue.is_empty() {
            return Ok(());
        }
        match pass_chunk(queue, pipe) {
            Ok(()) => {}
            Err(e) if e.kind() == ErrorKind::Interrupted => {}
            Err(e) => return Err(e),
        }
    }
    Err(io::Error::from(ErrorKind::TimedOut))
}

/// Offers the oldest bytes of a queue to a pipe, and removes the bytes that the pipe took. A pipe that takes no bytes
/// counts as failed.
fn pass_chunk<P: Pipe>(queue: &mut HeapCircularBuffer<u8>, pipe: &mut P) -> io::Result<()>
    ensures wrote { (offered : List ℕ) × (taken : Option ℕ)
        × Continues (P.calls pipe.old) (P.calls pipe.new) (Wrote offered taken ∷ []) × AreOldest queue.old.items offered
        × MatchResult result (λ _. TookSome queue.old.items queue.new.items offered taken)
        (λ _. TookNone taken × (queue.new.items ≡ queue.old.items)) }
    ensures limit { queue.new.capacity ≡ queue.old.capacity }
{
    let count = pipe.write(oldest(queue))?;
    if count == 0 {
        return Err(io::Error::from(ErrorKind::WriteZero));
    }
    queue.truncate_front(queue.len() - count);
    Ok(())
}

/// Returns the oldest bytes of a queue: at most 4,096, and at least one unless the queue is empty.
fn oldest(queue: &HeapCircularBuffer<u8>) -> &[u8]
    ensures oldest { AreOldest queue.now.items result.now }
{
    let (first, second) = queue.as_slices();
    let front = if first.is_empty() { second } else { first };
    &front[..front.len().min(CHUNK)]
}
