ghost use Rattle.std.specs.Prelude.{◌≡◌, ◌+◌, ◌*◌, ◌^◌, ◌<◌, ◌≤◌, [], ℕ, List, length, Some, OnOk, IfOk, Result};
ghost use Rattle.mg_core.specs.World.{World, counts_of};
ghost use Rattle.mg_core.specs.aids.Stands.{StandsFor};
ghost use Rattle.mg_lines.specs.Lines.{without_return};
ghost use Rattle.mg_core.specs.aids.Steps.{AllRan, Follows, LeadsOn, LineRan, BytesRan, Finishes};
ghost use Rattle.mg_core.specs.declared.shown.Shown.{Shown};
ghost use Rattle.mg_core.specs.declared.script_runner.TheConstants.{PARTIAL_LIMIT};

use crate::counts::Counts;
use crate::fault::{LineFault, ScriptFault};
use crate::line_runner::LineRunner;
use crate::machine::Core;
use crate::script::LINE_LIMIT;
use crate::shown::Shown;
use mg_bytes::Bytes;
use mg_lines::{READ_SIZE, read_some, without_return};
use std::alloc::{AllocError, Global};
use std::io::{Read, Write};

/// The maximum length of a partial line, in bytes: the longest line and a carriage return.
pub const PARTIAL_LIMIT: usize = LINE_LIMIT + 1;

/// Runs a script on a gateway. The script may arrive in pieces of any size.
#[derive(Drop)]
pub struct ScriptRunner {
    pub runner: LineRunner,
    /// The number of lines that were run.
    pub lines: u64,
    pub partial: Bytes,
    ghost partial_size: { partial.room + length partial.text ≡ PARTIAL_LIMIT },
}

impl ScriptRunner {
    /// Creates a runner with this gateway, at the start of a script. Fails only if an allocation fails.
    pub fn new(alloc: Global, core: Core, shown: Shown) -> Result<Self, AllocError>
        ensures start { (w : World) → StandsFor core.state w →
            IfOk result (λ s. Follows shown s.runner.core.state s.runner.watched w) }
        ensures lines { IfOk result (λ s. s.lines ≡ 0) }
        ensures sent { IfOk result (λ s. s.runner.sent ≡ 0) }
        ensures partial { IfOk result (λ s. s.partial.text ≡ []) }
    {
        let runner = LineRunner::new(alloc, core, shown)?;
        Ok(ScriptRunner {
            runner,
            lines: 0,
            partial: Bytes::new(alloc, PARTIAL_LIMIT)?,
        })
    }

    /// Runs the partial line, which is now complete.
    fn end_line<W: Write>(&mut self, alloc: Global, writer: &mut W) -> Result<(), LineFault>
        requires few { self.old.lines + 1 < 2 ^ 64 }
        ensures partial { OnOk result (self.new.partial.text ≡ []) }
        ensures lines { OnOk result (self.new.lines ≡ self.old.lines + 1) }
        ensures value { (shown : Shown) → LeadsOn (Follows shown self.old.runner.core.state self.old.runner.watched)
            (Follows shown self.new.runner.core.state self.new.runner.watched) result (λ w next.
            LineRan shown (self.old.lines + 1) (without_return self.old.partial.text)
            w next self.old.runner.sent self.new.runner.sent (W.contents writer.old) (W.contents writer.new) result) }
    {
        let number = self.lines + 1;
        let line = without_return(self.partial.as_slice());
        self.runner.take_line(alloc, number, line, writer)?;
        self.lines = number;
        self.partial.clear();
        Ok(())
    }

    /// Handles the next bytes of a script.
    fn take_bytes<W: Write>(
        &mut self,
        alloc: Global,
        bytes: &[u8],
        writer: &mut W,
    ) -> Result<(), LineFault>
        requires few { self.old.lines + length bytes.now < 2 ^ 64 }
        ensures lines { OnOk result (self.new.lines ≤ self.old.lines + length bytes.now) }
        ensures value { (shown : Shown) → LeadsOn (Follows shown self.old.runner.core.state self.old.runner.watched)
            (Follows shown self.new.runner.core.state self.new.runner.watched) result (λ w next.
            BytesRan shown self.old.lines self.new.lines self.old.partial.text bytes.now self.new.partial.text
            w next self.old.runner.sent self.new.runner.sent (W.contents writer.old) (W.contents writer.new) result) }
    {
        for b in bytes {
            if *b == b'\n' {
                self.end_line(alloc, writer)?;
                continue;
            }
            if self.partial.room() == 0 {
                return Err(LineFault::Bad(self.lines + 1));
            }
            self.partial.push(&[*b]);
        }
        Ok(())
    }

    /// Runs the last line if it has no line feed.
    fn finish<W: Write>(&mut self, alloc: Global, writer: &mut W) -> Result<(), LineFault>
        requires few { self.old.lines + 1 < 2 ^ 64 }
        ensures value { (shown : Shown) → LeadsOn (Follows shown self.old.runner.core.state self.old.runner.watched)
            (Follows shown self.new.runner.core.state self.new.runner.watched) result (λ w next.
            Finishes shown self.old.lines self.new.lines self.old.partial.text w next self.old.runner.sent
            self.new.runner.sent (W.contents writer.old) (W.contents writer.new) result) }
    {
        let line = self.partial.as_slice();
        if line.is_empty() {
            return Ok(());
        }
        let number = self.lines + 1;
        self.runner.take_line(alloc, number, line, writer)?;
        self.lines = number;
        Ok(())
    }

    /// Reads a whole script, and runs it on the runner's gateway. The runner must not have run anything yet.
    pub fn take_all<R: Read, W: Write>(
        &mut self,
        alloc: Global,
        reader: &mut R,
        writer: &mut W,
    ) -> Result<(), ScriptFault>
        requires lines { self.old.lines ≡ 0 }
        requires partial { self.old.partial.text ≡ [] }
        requires sent { self.old.runner.sent ≡ 0 }
        ensures value { (shown : Shown) (base : World) →
            Follows shown self.old.runner.core.state self.old.runner.watched base →
            AllRan base shown (R.remaining reader.old) (R.remaining reader.new) self.new.runner.core.state
            self.new.lines self.new.runner.sent (W.contents writer.old) (W.contents writer.new) result }
    {
        let mut buffer = [0; READ_SIZE];
        for _ in 0..u32::MAX {
            let Some(n) = read_some(reader, &mut buffer)? else {
                self.finish(alloc, writer)?;
                return Ok(());
            };
            self.take_bytes(alloc, &buffer[..n], writer)?;
        }
        Err(ScriptFault::Read)
    }

    /// Returns the counts.
    pub fn counts(&self) -> Counts
        ensures lines { result.lines ≡ self.now.lines }
        ensures sent { result.sent ≡ self.now.runner.sent }
        ensures events { (w : World) → StandsFor self.now.runner.core.state w →
            record result { lines = 0; sent = 0; failed = 0 } ≡ counts_of w.tally }
    {
        Counts {
            lines: self.lines,
            sent: self.runner.sent,
            ..self.runner.core.counts()
        }
    }
}
