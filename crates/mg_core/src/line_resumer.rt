ghost use Rattle.std.specs.Prelude.{◌≡◌, ◌↔◌, ◌||◌, [], false, true, List, ℕ, Err, IfOk, None, OnOk, OnErr};
ghost use Rattle.mg_core.specs.aids.Resuming.{Adds, EventResumed, HasFollowed, KeepsLines, KeepsUp, LineRead, LineResumed, counted_in};
ghost use Rattle.mg_core.specs.Counted.{is_mark};
ghost use Rattle.mg_core.specs.Follow.{HasRun, ticks_of};
ghost use Rattle.mg_core.specs.Note.{Note};
ghost use Rattle.mg_core.specs.World.{World};

use crate::counted::{is_mark, ticks_in};
use crate::event::Event;
use crate::fault::LineFault;
use crate::follower::Follower;
use crate::machine::Core;
use crate::script::{ParseFault, event_of};
use crate::stopped::Stopped;
use std::alloc::Global;

/// Runs the lines of a script on a gateway, without output. Consecutive ticks are run together.
#[derive(Drop)]
pub struct LineResumer {
    pub core: Core,
    /// The number of ticks that have been counted but not run yet. They come after everything that has been run.
    pub ticks: u64,
    /// Whether a line such as `ticks 12` is read as twelve ticks. This is the case after the line `# counted ticks`.
    pub counts: bool,
}

impl LineResumer {
    /// Creates a runner with a gateway in this state.
    pub fn new(core: Core) -> Self
        ensures core { result.core ≡ core }
        ensures ticks { result.ticks ≡ 0 }
        ensures counts { result.counts ≡ false }
    {
        LineResumer {
            core,
            ticks: 0,
            counts: false,
        }
    }

    /// Reports the ticks that have been counted but not run yet to the follower, and then runs them.
    pub fn run_ticks<F: Follower>(&mut self, follower: &mut F) -> Result<(), Stopped>
        ensures value { (start : F) (base : World) (notes : List Note) →
            KeepsUp base self.old.core.state self.old.ticks (HasFollowed F.follows start follower.old base) notes →
            OnOk result (KeepsUp base self.new.core.state 0 (HasFollowed F.follows start follower.new base) notes) }
        ensures ticks { OnOk result (self.new.ticks ≡ 0) }
        ensures counts { self.new.counts ≡ self.old.counts }
        ensures stops { OnErr result (F.may_stop ≡ true) }
    {
        if self.ticks == 0 {
            return Ok(());
        }
        follower.ticks(&self.core, self.ticks)?;
        self.core.skip(self.ticks);
        self.ticks = 0;
        Ok(())
    }

    /// Counts ticks, to be run later. If the count would reach 2^64, first runs the ticks that were counted before.
    pub fn take_ticks<F: Follower>(&mut self, count: u64, follower: &mut F) -> Result<(), Stopped>
        ensures value { (start : F) (base : World) → OnOk result (Adds
            (KeepsUp base self.old.core.state self.old.ticks (HasFollowed F.follows start follower.old base))
            (KeepsUp base self.new.core.state self.new.ticks (HasFollowed F.follows start follower.new base))
            (ticks_of count)) }
        ensures counts { self.new.counts ≡ self.old.counts }
        ensures stops { OnErr result (F.may_stop ≡ true) }
    {
        match self.ticks.checked_add(count) {
            Some(ticks) => self.ticks = ticks,
            None => {
                self.run_ticks(follower)?;
                self.ticks = count;
            }
        }
        Ok(())
    }

    /// Runs an event, or counts it if it is a tick. The answer to a control datagram is dropped.
    fn take_event<F: Follower>(
        &mut self,
        alloc: Global,
        event: &Event,
        follower: &mut F,
    ) -> Result<(), LineFault>
        ensures value { (start : F) (base : World) → EventResumed F.may_stop event.now
            (KeepsUp base self.old.core.state self.old.ticks (HasFollowed F.follows start follower.old base))
            (KeepsUp base self.new.core.state self.new.ticks (HasFollowed F.follows start follower.new base))
            result }
        ensures counts { self.new.counts ≡ self.old.counts }
    {
        match event {
            Event::Tick => {
                self.take_ticks(1, follower)?;
                Ok(())
            }
            Event::Media(port, source, bytes) => {
                self.run_ticks(follower)?;
                let _ = self.core.media(*port, *source, bytes.as_slice());
                follower.datagram(event, &self.core)?;
                Ok(())
            }
            Event::Control(source, bytes) => {
                self.run_ticks(follower)?;
                self.core.control(alloc, *source, bytes.as_slice())?;
                follower.datagram(event, &self.core)?;
                Ok(())
            }
        }
    }

    /// Runs a complete line that doesn't count ticks; `number` is its number.
    fn take_plain<F: Follower>(
        &mut self,
        alloc: Global,
        number: u64,
        line: &[u8],
        follower: &mut F,
    ) -> Result<(), LineFault>
        ensures value { (start : F) (base : World) → LineResumed F.may_stop number line.now
            (KeepsUp base self.old.core.state self.old.ticks (HasFollowed F.follows start follower.old base))
            (KeepsUp base self.new.core.state self.new.ticks (HasFollowed F.follows start follower.new base))
            result }
        ensures counts { self.new.counts ≡ self.old.counts }
    {
        match event_of(alloc, line) {
            Err(ParseFault::Bad) => Err(LineFault::Bad(number)),
            Err(ParseFault::NoMemory) => Err(LineFault::NoMemory),
            Ok(None) => {
                self.run_ticks(follower)?;
                follower.comment(number, line)?;
                Ok(())
            }
            Ok(Some(event)) => {
                self.take_event(alloc, &event, follower)?;
                Ok(())
            }
        }
    }
    /// Returns the number of ticks in a line, or `None` if the line doesn't count ticks.
    fn counted_in(&self, line: &[u8]) -> Option<u64>
        ensures value { result ≡ counted_in self.now.counts line.now }
    {
        if self.counts { ticks_in(line) } else { None }
    }

    /// Returns whether ticks are counted after a line.
    fn counts_after(&self, line: &[u8]) -> bool
        ensures value { result ≡ (self.now.counts || is_mark line.now) }
    {
        self.counts || is_mark(line)
    }

    /// Runs a complete line; `number` is its number.
    pub fn take_line<F: Follower>(
        &mut self,
        alloc: Global,
        number: u64,
        line: &[u8],
        follower: &mut F,
    ) -> Result<(), LineFault>
        ensures value { (start : F) (base : World) → LineRead F.may_stop number line.now
            (KeepsLines base self.old.core.state self.old.counts self.old.ticks
            (HasFollowed F.follows start follower.old base))
            (KeepsLines base self.new.core.state self.new.counts self.new.ticks
            (HasFollowed F.follows start follower.new base)) result }
    {
        match self.counted_in(line) {
            Some(count) => self.take_ticks(count, follower)?,
            None => {
                self.take_plain(alloc, number, line, follower)?;
                self.counts = self.counts_after(line);
            }
        }
        Ok(())
    }
}
