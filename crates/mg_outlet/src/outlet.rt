ghost use Rattle.std.specs.Prelude.{◌≡◌, ◌++◌, [], length, List, Some, None, Err, IfErr, IfOk, IfSome, OnErr, OnOk};
ghost use Rattle.std.specs.Io.{WritesAtMost};
ghost use Rattle.std.specs.Io.KnownBytes.{Keeps, WriteAppends};
ghost use Rattle.mg_outlet.specs.Passing.{Continues, PipeCall, taken_in};
ghost use Rattle.mg_outlet.specs.Outlet.{queued, dropped, failure, pipe, has_ended, new_outlet, drops, write_limit};
ghost use Rattle.mg_outlet.specs.Outlet.{IsFlushed, IsWritten};

use crate::outlet_fault::OutletFault;
use crate::overflow::Overflow;
use crate::passing::{CHUNK, pass_all, pass_on};
use crate::pipe::Pipe;
use crate::system_pipe::SystemPipe;
use circular_buffer::HeapCircularBuffer;
use std::alloc::{AllocError, Global};
use std::io::{self, Write};
use std::net::Net;
use std::os::fd::AsRawFd;

/// The maximum number of chunks that one flush passes on (1 MiB in total).
const FLUSH_CHUNKS: u16 = 256;

/// A writer that never waits for its reader, except in [`finish`](Outlet::finish).
///
/// A write adds all of its text to a queue in memory, or none of it. [`flush`](Write::flush) passes on as many bytes as
/// it can without waiting, in order. So does [`write`](Write::write), if at least 4,096 bytes are queued already. A
/// flush passes on at most 1 MiB, and a write at most 4,096 bytes. So even a reader that catches up doesn't delay the
/// caller for long.
///
/// If the pipe fails, each later write, flush and [`finish`](Outlet::finish) returns the pipe's error, and nothing more
/// is written. If a write to the pipe was interrupted, the outlet tries again. If a write would have waited, the outlet
/// tries again later, except in `finish`: there, the pipe has failed.
#[derive(Drop)]
pub struct Outlet<P> {
    pipe: P,
    queue: HeapCircularBuffer<u8>,
    overflow: Overflow,
    /// The number of dropped writes.
    dropped: u64,
    failure: Option<io::Error>,
}

impl<W: Write + AsRawFd + Drop> Outlet<SystemPipe<W>> {
    /// Creates an outlet for a descriptor, such as standard output. The outlet asks the system whether a write would
    /// wait.
    pub fn watching<N: Net>(
        net: &N,
        alloc: Global,
        writer: W,
        limit: usize,
        overflow: Overflow,
    ) -> Result<Self, OutletFault>
        ensures value { IfOk result (λ outlet. outlet ≡ new_outlet (pipe outlet) limit overflow) }
    {
        let descriptor = writer.as_raw_fd();
        let pipe = match SystemPipe::new(net, alloc, writer) {
            Ok(pipe) => pipe,
            Err(error) => return Err(OutletFault::Watch { descriptor, error }),
        };
        match Outlet::new(alloc, pipe, limit, overflow) {
            Ok(outlet) => Ok(outlet),
            Err(_) => Err(OutletFault::Memory { limit }),
        }
    }
}

impl<P: Pipe> Outlet<P> {
    /// Creates an outlet with an empty queue of at most `limit` bytes, which are allocated now.
    pub fn new(alloc: Global, pipe: P, limit: usize, overflow: Overflow) -> Result<Self, AllocError>
    where
        P: Drop,
        ensures value { IfOk result (λ outlet. outlet ≡ new_outlet pipe limit overflow) }
    {
        let queue = HeapCircularBuffer::with_capacity(alloc, limit)?;
        Ok(Outlet {
            pipe,
            queue,
            overflow,
            dropped: 0,
            failure: None,
        })
    }

    /// Returns the pipe.
    pub fn get_ref(&self) -> &P
        ensures value { result.now ≡ pipe self.now }
    {
        &self.pipe
    }

    /// Returns the number of queued bytes.
    pub fn queued(&self) -> usize
        ensures value { result ≡ length (queued self.now) }
    {
        self.queue.len()
    }

    /// Returns the number of dropped writes.
    pub fn dropped(&self) -> u64
        ensures value { result ≡ dropped self.now }
    {
        self.dropped
    }

    /// Returns whether the outlet has ended. If so, a write didn't fit, and everything that is written later is
    /// dropped.
    pub fn has_ended(&self) -> bool
        ensures value { result ≡ has_ended self.now }
    {
        self.overflow == Overflow::End && self.dropped > 0
    }

    /// Passes on everything in the queue. Unlike the other calls, this one waits for the reader, so use it at the end
    /// of the program.
    pub fn finish(&mut self) -> io::Result<()>
        ensures passed { (calls : List PipeCall) × Continues (P.calls (pipe self.old)) (P.calls (pipe self.new)) calls
            × (queued self.old ≡ taken_in calls ++ queued self.new) }
        ensures empty { OnOk result (queued self.new ≡ []) }
        ensures count { dropped self.new ≡ dropped self.old }
        ensures fails { IfErr result (λ e. failure self.new ≡ Some e) }
        ensures works { OnOk result (failure self.new ≡ None) }
        ensures sticks { IfSome (failure self.old) (λ e. (result ≡ Err e) × (self.new ≡ self.old)) }
    {
        self.check()?;
        let outcome = pass_all(&mut self.queue, &mut self.pipe);
        self.keep(outcome)
    }

    /// Passes on at most this many chunks of the queue.
    fn pass(&mut self, chunks: u16) -> io::Result<()>
        ensures flushed { IsFlushed P.calls chunks self.old self.new }
        ensures fails { IfErr result (λ e. failure self.new ≡ Some e) }
        ensures works { OnOk result (failure self.new ≡ None) }
        ensures sticks { IfSome (failure self.old) (λ e. (result ≡ Err e) × (self.new ≡ self.old)) }
    {
        self.check()?;
        let outcome = pass_on(&mut self.queue, &mut self.pipe, chunks);
        self.keep(outcome)
    }

    /// Returns the error of an earlier write to the pipe, if an earlier write failed.
    fn check(&self) -> io::Result<()>
        ensures fails { IfErr result (λ e. failure self.now ≡ Some e) }
        ensures works { OnOk result (failure self.now ≡ None) }
    {
        match self.failure {
            Some(error) => Err(error),
            None => Ok(()),
        }
    }

    /// Returns the outcome. If it is an error, stores the error for later calls.
    fn keep(&mut self, outcome: io::Result<()>) -> io::Result<()>
        ensures value { result ≡ outcome }
        ensures fails { IfErr outcome (λ e. self.new ≡ record self.old { failure = Some e }) }
        ensures works { OnOk outcome (self.new ≡ self.old) }
    {
        if let Err(error) = outcome {
            self.failure = Some(error);
        }
        outcome
    }

    /// Returns the number of chunks that a write passes on: 1 if a whole chunk is queued, otherwise 0.
    fn write_chunks(&self) -> u16
        ensures value { result ≡ write_limit self.now }
    {
        if self.queue.len() < CHUNK { 0 } else { 1 }
    }

    /// Returns whether this text would be dropped at this point.
    fn drops(&self, text: &[u8]) -> bool
        ensures value { result ≡ drops self.now (queued self.now) text.now }
    {
        text.len() > self.queue.capacity() - self.queue.len() || self.has_ended()
    }
}

impl<P: Pipe> Write for Outlet<P> {
    /// Accepts or drops all of the text, and returns the length of the text in either case. Fails if the pipe fails or
    /// has failed.
    fn write(&mut self, text: &[u8]) -> io::Result<usize>
        ensures bound { WritesAtMost result text.now }
        ensures bytes { WriteAppends None None result text.now }
        ensures length { IfOk result (λ n. n ≡ length text.now) }
        ensures written { OnOk result (IsWritten P.calls text.now self.old self.new) }
        ensures unwritten { OnErr result (IsFlushed P.calls (write_limit self.old) self.old self.new) }
        ensures fails { IfErr result (λ e. failure self.new ≡ Some e) }
        ensures works { OnOk result (failure self.new ≡ None) }
        ensures sticks { IfSome (failure self.old) (λ e. (result ≡ Err e) × (self.new ≡ self.old)) }
    {
        self.pass(self.write_chunks())?;
        if self.drops(text) {
            self.dropped = self.dropped.saturating_add(1);
        } else {
            self.queue.fill_from_slice(text);
        }
        Ok(text.len())
    }

    /// Passes on queued bytes, at most 1 MiB, as long as the pipe is ready.
    fn flush(&mut self) -> io::Result<()>
        ensures bytes { Keeps None None }
        ensures flushed { IsFlushed P.calls 256 self.old self.new }
        ensures fails { IfErr result (λ e. failure self.new ≡ Some e) }
        ensures works { OnOk result (failure self.new ≡ None) }
        ensures sticks { IfSome (failure self.old) (λ e. (result ≡ Err e) × (self.new ≡ self.old)) }
    {
        self.pass(FLUSH_CHUNKS)
    }
}
