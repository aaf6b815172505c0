ghost use Rattle.std.specs.Prelude.{◌≡◌, ℕ, ◌+◌, ◌*◌, ◌≤◌, ◌<◌, ◌^◌, ◌↔◌, ◌++◌, [], false, true, codes, drop, Err, length, IfErr, IfOk, OnErr, OnOk};
ghost use Rattle.memchr.specs.Find.{IsFirstByte, is_byte};
ghost use Rattle.mg_core.specs.aids.Resuming.{AllResumed, BytesResumed, CopiesTaken, EndedResumed, HasFollowed, IsAfterCopies, KeepsLines, LastResumed};
ghost use Rattle.mg_core.specs.declared.script_runner.TheConstants.{PARTIAL_LIMIT};
ghost use Rattle.mg_core.specs.Follow.{HasRun};
ghost use Rattle.mg_core.specs.World.{World};
ghost use Rattle.mg_core.specs.aids.Stands.{StandsFor};
ghost use Rattle.mg_core.specs.aids.Following.{IsFollowedUntil};

use crate::fault::{LineFault, ScriptFault};
use crate::follower::Follower;
use crate::line_resumer::LineResumer;
use crate::machine::Core;
use crate::script_runner::PARTIAL_LIMIT;
use crate::stopped::Stopped;
use crate::watcher::Watcher;
use memchr::memchr;
use mg_bytes::Bytes;
use mg_lines::{READ_SIZE, read_some, without_return};
use std::alloc::{AllocError, Global};
use std::io::Read;

/// Returns the index of the first line feed, or `None` if there is none. Many lines of a recording are `tick`, so a
/// comparison with that line comes first.
fn line_end(text: &[u8]) -> Option<usize>
    ensures value { IsFirstByte (is_byte 10) text.now result }
{
    match text {
        [b't', b'i', b'c', b'k', b'\n', ..] => Some(4),
        _ => memchr(b'\n', text),
    }
}

/// Sixteen `tick` lines.
const SIXTEEN_TICKS: &[u8; 80] =
    b"tick\ntick\ntick\ntick\ntick\ntick\ntick\ntick\ntick\ntick\ntick\ntick\ntick\ntick\ntick\ntick\n";

/// Counts the `tick` lines at the start of some text, sixteen at a time. Up to fifteen `tick` lines may remain
/// uncounted.
fn leading_ticks(text: &[u8]) -> usize
    ensures value { IsAfterCopies (codes "tick") result text.now (drop (5 * result) text.now) }
    ensures within { 5 * result ≤ length text.now }
{
    let mut rest = text;
    let mut count = 0;
    while let Some(next) = rest.strip_prefix(SIXTEEN_TICKS.as_slice()) {
        rest = next;
        count += 16;
    }
    count
}

/// Eight `ticks 10` lines. A journal has such a line for every ten ticks between which no message arrives.
const EIGHT_TENS: &[u8; 72] =
    b"ticks 10\nticks 10\nticks 10\nticks 10\nticks 10\nticks 10\nticks 10\nticks 10\n";

/// Counts the `ticks 10` lines at the start of some text, eight at a time. Up to seven such lines may remain uncounted.
fn leading_tens(text: &[u8]) -> usize
    ensures value { IsAfterCopies (codes "ticks 10") result text.now (drop (9 * result) text.now) }
    ensures within { 9 * result ≤ length text.now }
{
    let mut rest = text;
    let mut count = 0;
    while let Some(next) = rest.strip_prefix(EIGHT_TENS.as_slice()) {
        rest = next;
        count += 8;
    }
    count
}

/// Returns whether `part` is a whole `tick` line, with nothing in `partial` before it.
fn is_tick(partial: &Bytes, part: &[u8]) -> bool
    ensures value { result ≡ true → (partial.now.text ≡ []) × (part.now ≡ codes "tick") }
{
    match part {
        [b't', b'i', b'c', b'k'] => partial.as_slice().is_empty(),
        _ => false,
    }
}

/// Runs a script on a gateway, without output. The script may arrive in pieces of any size.
#[derive(Drop)]
pub struct Resumer {
    pub runner: LineResumer,
    /// The number of lines so far, not counting a last line without a line feed.
    pub lines: u64,
    pub partial: Bytes,
    ghost partial_size: { partial.room + length partial.text ≡ PARTIAL_LIMIT },
}

impl Resumer {
    /// Creates a runner with a gateway in this state, at the start of a script. Fails only if an allocation fails.
    pub fn new(alloc: Global, core: Core) -> Result<Self, AllocError>
        ensures start { IfOk result (λ s. (base : World) → StandsFor core.state base →
            HasRun base [] s.runner.core.state) }
        ensures ticks { IfOk result (λ s. s.runner.ticks ≡ 0) }
        ensures counts { IfOk result (λ s. s.runner.counts ≡ false) }
        ensures lines { IfOk result (λ s. s.lines ≡ 0) }
        ensures partial { IfOk result (λ s. s.partial.text ≡ []) }
    {
        Ok(Resumer {
            runner: LineResumer::new(core),
            lines: 0,
            partial: Bytes::new(alloc, PARTIAL_LIMIT)?,
        })
    }

    /// Appends to the partial line, unless that would make it too long.
    fn keep(&mut self, part: &[u8]) -> Result<(), LineFault>
        requires few { self.old.lines + 1 < 2 ^ 64 }
        ensures kept { OnOk result (self.new.partial.text ≡ self.old.partial.text ++ part.now) }
        ensures long { IfErr result (λ fault. (fault ≡ LineFault.Bad (self.old.lines + 1)) ×
            (140002 ≤ length (self.old.partial.text ++ part.now))) }
        ensures lines { self.new.lines ≡ self.old.lines }
        ensures runner { self.new.runner ≡ self.old.runner }
    {
        if self.partial.room() < part.len() {
            return Err(LineFault::Bad(self.lines + 1));
        }
        self.partial.push(part);
        Ok(())
    }

    /// Runs the partial line, which this part completes.
    fn end_line<F: Follower>(
        &mut self,
        alloc: Global,
        part: &[u8],
        follower: &mut F,
    ) -> Result<(), LineFault>
        requires few { self.old.lines + 1 < 2 ^ 64 }
        ensures partial { OnOk result (self.new.partial.text ≡ []) }
        ensures lines { OnOk result (self.new.lines ≡ self.old.lines + 1) }
        ensures value { (start : F) (base : World) → EndedResumed F.may_stop self.old.lines
            (self.old.partial.text ++ part.now)
            (KeepsLines base self.old.runner.core.state self.old.runner.counts self.old.runner.ticks
            (HasFollowed F.follows start follower.old base))
            (KeepsLines base self.new.runner.core.state self.new.runner.counts self.new.runner.ticks
            (HasFollowed F.follows start follower.new base)) result }
    {
        if is_tick(&self.partial, part) {
            self.runner.take_ticks(1, follower)?;
            self.lines += 1;
            return Ok(());
        }
        self.keep(part)?;
        let number = self.lines + 1;
        let line = without_return(self.partial.as_slice());
        self.runner.take_line(alloc, number, line, follower)?;
        self.lines = number;
        self.partial.clear();
        Ok(())
    }

    /// Counts the `tick` lines at the start of some text, and returns the rest of the text. Up to fifteen `tick` lines
    /// may remain in the rest.
    fn take_ticks<'a, F: Follower>(
        &mut self,
        text: &'a [u8],
        follower: &mut F,
    ) -> Result<&'a [u8], Stopped>
        requires few { self.old.lines + length text.now < 2 ^ 64 }
        ensures partial { self.new.partial ≡ self.old.partial }
        ensures lines { IfOk result (λ rest. self.new.lines + length rest.now ≤ self.old.lines + length text.now) }
        ensures short { IfOk result (λ rest. length rest.now ≤ length text.now) }
        ensures value { (start : F) (base : World) → IfOk result (λ rest. CopiesTaken (codes "tick")
            self.old.lines self.new.lines text.now rest.now
            (KeepsLines base self.old.runner.core.state self.old.runner.counts self.old.runner.ticks
            (HasFollowed F.follows start follower.old base))
            (KeepsLines base self.new.runner.core.state self.new.runner.counts self.new.runner.ticks
            (HasFollowed F.follows start follower.new base))) }
        ensures stops { OnErr result (F.may_stop ≡ true) }
    {
        let count = leading_ticks(text);
        self.runner.take_ticks(count as u64, follower)?;
        self.lines += count as u64;
        let (_, rest) = text.split_at(5 * count);
        Ok(rest)
    }

    /// Counts the ticks of the `ticks 10` lines at the start of some text, and returns the rest of the text. Up to seven
    /// such lines may remain in the rest; all remain if the script doesn't count ticks.
    fn take_tens<'a, F: Follower>(
        &mut self,
        text: &'a [u8],
        follower: &mut F,
    ) -> Result<&'a [u8], Stopped>
        requires few { self.old.lines + length text.now < 2 ^ 64 }
        ensures partial { self.new.partial ≡ self.old.partial }
        ensures lines { IfOk result (λ rest. self.new.lines + length rest.now ≤ self.old.lines + length text.now) }
        ensures short { IfOk result (λ rest. length rest.now ≤ length text.now) }
        ensures value { (start : F) (base : World) → IfOk result (λ rest. CopiesTaken (codes "ticks 10")
            self.old.lines self.new.lines text.now rest.now
            (KeepsLines base self.old.runner.core.state self.old.runner.counts self.old.runner.ticks
            (HasFollowed F.follows start follower.old base))
            (KeepsLines base self.new.runner.core.state self.new.runner.counts self.new.runner.ticks
            (HasFollowed F.follows start follower.new base))) }
        ensures stops { OnErr result (F.may_stop ≡ true) }
    {
        if !self.runner.counts {
            return Ok(text);
        }
        let count = leading_tens(text);
        self.runner.take_ticks(10 * count as u64, follower)?;
        self.lines += count as u64;
        let (_, rest) = text.split_at(9 * count);
        Ok(rest)
    }

    /// Handles the next bytes of a script.
    fn take_bytes<F: Follower>(
        &mut self,
        alloc: Global,
        bytes: &[u8],
        follower: &mut F,
    ) -> Result<(), LineFault>
        requires few { self.old.lines + length bytes.now + 1 < 2 ^ 64 }
        ensures lines { OnOk result (self.new.lines ≤ self.old.lines + length bytes.now) }
        ensures value { (start : F) (base : World) → BytesResumed F.may_stop self.old.lines self.new.lines
            self.old.partial.text bytes.now self.new.partial.text
            (KeepsLines base self.old.runner.core.state self.old.runner.counts self.old.runner.ticks
            (HasFollowed F.follows start follower.old base))
            (KeepsLines base self.new.runner.core.state self.new.runner.counts self.new.runner.ticks
            (HasFollowed F.follows start follower.new base)) result }
    {
        let mut rest = bytes;
        while let Some(end) = line_end(rest) {
            let (part, tail) = rest.split_at(end);
            self.end_line(alloc, part, follower)?;
            let (_, next) = tail.split_at(1);
            let next = self.take_ticks(next, follower)?;
            rest = self.take_tens(next, follower)?;
        }
        self.keep(rest)
    }

    /// Runs the last line if it has no line feed.
    fn take_last<F: Follower>(&mut self, alloc: Global, follower: &mut F) -> Result<(), LineFault>
        requires few { self.old.lines + 1 < 2 ^ 64 }
        ensures value { (start : F) (base : World) → LastResumed F.may_stop self.old.lines self.old.partial.text
            (KeepsLines base self.old.runner.core.state self.old.runner.counts self.old.runner.ticks
            (HasFollowed F.follows start follower.old base))
            (KeepsLines base self.new.runner.core.state self.new.runner.counts self.new.runner.ticks
            (HasFollowed F.follows start follower.new base)) result }
    {
        let line = self.partial.as_slice();
        if line.is_empty() {
            return Ok(());
        }
        let number = self.lines + 1;
        self.runner.take_line(alloc, number, line, follower)?;
        Ok(())
    }

    /// Runs the last line if it has no line feed, and the last ticks.
    fn finish<F: Follower>(&mut self, alloc: Global, follower: &mut F) -> Result<(), LineFault>
        requires few { self.old.lines + 1 < 2 ^ 64 }
        ensures value { (start : F) (base : World) → LastResumed F.may_stop self.old.lines self.old.partial.text
            (KeepsLines base self.old.runner.core.state self.old.runner.counts self.old.runner.ticks
            (HasFollowed F.follows start follower.old base))
            (KeepsLines base self.new.runner.core.state self.new.runner.counts 0
            (HasFollowed F.follows start follower.new base)) result }
    {
        self.take_last(alloc, follower)?;
        self.runner.run_ticks(follower)?;
        Ok(())
    }

    /// Reads a whole script, and runs it on the runner's gateway. The runner must not have run anything yet.
    pub fn take_all<R: Read, F: Follower>(
        &mut self,
        alloc: Global,
        reader: &mut R,
        follower: &mut F,
    ) -> Result<(), ScriptFault>
        requires lines { self.old.lines ≡ 0 }
        requires ticks { self.old.runner.ticks ≡ 0 }
        requires counts { self.old.runner.counts ≡ false }
        requires partial { self.old.partial.text ≡ [] }
        ensures value { (base : World) → HasRun base [] self.old.runner.core.state →
            AllResumed F.may_stop base (R.remaining reader.old) (R.remaining reader.new)
            self.new.runner.core.state (HasFollowed F.follows follower.old follower.new base) result }
    {
        let mut buffer = [0; READ_SIZE];
        for _ in 0..u32::MAX {
            let Some(n) = read_some(reader, &mut buffer)? else {
                self.finish(alloc, follower)?;
                return Ok(());
            };
            self.take_bytes(alloc, &buffer[..n], follower)?;
        }
        Err(ScriptFault::Read)
    }

    /// Reads a script until it ends or the follower is done, and runs it on the runner's gateway. The runner must not
    /// have run anything yet. All ticks that have arrived are run before more of the script is read.
    pub fn take_until_done<R: Read, F: Watcher>(
        &mut self,
        alloc: Global,
        reader: &mut R,
        follower: &mut F,
    ) -> Result<(), ScriptFault>
        requires lines { self.old.lines ≡ 0 }
        requires ticks { self.old.runner.ticks ≡ 0 }
        requires counts { self.old.runner.counts ≡ false }
        requires partial { self.old.partial.text ≡ [] }
        ensures value { (base : World) → HasRun base [] self.old.runner.core.state → OnOk result
            (IsFollowedUntil base (R.remaining reader.old) (R.remaining reader.new) self.new.runner.core.state F.done
            (λ f. HasFollowed F.follows follower.old f base) follower.new) }
    {
        let mut buffer = [0; READ_SIZE];
        for _ in 0..u32::MAX {
            let Some(n) = read_some(reader, &mut buffer)? else {
                self.finish(alloc, follower)?;
                return Ok(());
            };
            self.take_bytes(alloc, &buffer[..n], follower)?;
            if self.runner.run_ticks(follower).is_err() {
                return Err(ScriptFault::Write);
            }
            if follower.is_done() {
                return Ok(());
            }
        }
        Err(ScriptFault::Read)
    }
}
