ghost use Rattle.std.specs.Prelude.{◌≡◌, ◌++◌, [], IfOk, List, OnOk};
ghost use Rattle.mg_core.specs.Base.{IsBase};
ghost use Rattle.mg_core.specs.Follow.{ticks_of};
ghost use Rattle.mg_core.specs.Note.{Note};
ghost use Rattle.mg_core.specs.World.{World};
ghost use Rattle.mg_audible.specs.Told.{TellsAudible};
ghost use Rattle.mg_audible.specs.aids.Keeping.{KeepsTimed, StandForBoth};

use crate::pair::Pair;
use crate::telling::tell_audible;
use crate::theorems::differences_are_speech;
use mg_core::{Core, Event, Follower, Stopped};
use mg_heard::{Clock, ClockFault, HeardFault, OpenIntervals, Sink, tell_gap};
use std::alloc::Global;

/// The maximum number of consecutive ticks: those of a day. Both gateways run each tick, so a line of a journal that
/// counts more ticks would take too long.
const MAX_TICKS: u64 = 4_320_000;

/// Follows when a talker is audible, and reports each interval to a sink when the interval or the script ends. The
/// gateway that runs the script mixes no packets, so the follower has two gateways of its own.
#[derive(Drop)]
pub(crate) struct Audible<S: Sink> {
    alloc: Global,
    pub(crate) sink: S,
    pub(crate) clock: Clock,
    /// The reason why the follower stopped, or `None` if it has not stopped or if the sink made it stop.
    pub(crate) fault: Option<HeardFault>,
    pub(crate) pair: Pair,
    pub(crate) open: OpenIntervals,
    /// The intervals that ended with the last tick.
    ended: OpenIntervals,
}

impl<S: Sink> Audible<S> {
    /// Creates a follower at the beginning of a script.
    pub(crate) fn new(alloc: Global, pair: Pair, sink: S) -> Result<Self, HeardFault>
    where
        S: Drop,
        ensures start { (base : World) → StandForBoth pair.whole.state pair.without.state base base →
            S.told sink sink [] → IfOk result (λ a. KeepsTimed base pair.talker [] a.pair.whole.state
            a.pair.without.state a.clock a.open (S.told a.sink a.sink)) }
        ensures sink { IfOk result (λ a. a.sink ≡ sink) }
        ensures talker { IfOk result (λ a. a.pair.talker ≡ pair.talker) }
    {
        let Ok(open) = OpenIntervals::new(alloc) else {
            return Err(HeardFault::NoMemory);
        };
        let Ok(ended) = OpenIntervals::new(alloc) else {
            return Err(HeardFault::NoMemory);
        };
        Ok(Audible {
            alloc,
            sink,
            clock: Clock::new(),
            fault: None,
            pair,
            open,
            ended,
        })
    }

    /// Stores the reason why the follower stops.
    fn stop(&mut self, fault: HeardFault) -> Stopped {
        self.fault = Some(fault);
        Stopped
    }

    /// Runs a tick on both gateways, and reports the intervals that end with the tick.
    fn pass_tick(&mut self) -> Result<(), Stopped>
        ensures value { (start : S) (base : World) (notes : List Note) →
            KeepsTimed base self.old.pair.talker notes self.old.pair.whole.state self.old.pair.without.state
            self.old.clock self.old.open (S.told start self.old.sink) →
            OnOk result (KeepsTimed base self.old.pair.talker (notes ++ ticks_of 1) self.new.pair.whole.state
            self.new.pair.without.state self.new.clock self.new.open (S.told start self.new.sink)) }
        ensures talker { OnOk result (self.new.pair.talker ≡ self.old.pair.talker) }
    {
        let now = self.clock.now();
        let flows = self.pair.tick();
        self.open.advance_to(&mut self.ended, flows.as_slice(), now);
        tell_audible(self.ended.as_slice(), Some(now), &mut self.sink)?;
        match self.clock.pass_ticks(1) {
            Ok(_) => Ok(()),
            Err(fault) => Err(self.stop(HeardFault::Clock(fault))),
        }
    }

    /// Reports the intervals that have not ended at the end of a script.
    pub(crate) fn finish(&mut self) -> Result<(), Stopped>
        ensures value { (start : S) (base : World) (notes : List Note) → IsBase base →
            KeepsTimed base self.old.pair.talker notes self.old.pair.whole.state self.old.pair.without.state
            self.old.clock self.old.open (S.told start self.old.sink) →
            OnOk result (TellsAudible base self.old.pair.talker notes (S.told start self.new.sink)) }
    {
        mg_core::theorems::outcomes_are_unique();
        differences_are_speech();
        tell_audible(self.open.as_slice(), None, &mut self.sink)
    }
}

impl<S: Sink> Follower for Audible<S> {
    ghost use Rattle.std.specs.Prelude.{◌≡◌, true};
    ghost use Rattle.mg_audible.specs.aids.Keeping.{KeepsTimed};

    ghost may_stop = { true };

    ghost follows = { λ start a base notes. (a.pair.talker ≡ start.pair.talker)
        × KeepsTimed base start.pair.talker notes a.pair.whole.state a.pair.without.state a.clock a.open
        (S.told start.sink a.sink) };

    fn comment(&mut self, number: u64, line: &[u8]) -> Result<(), Stopped> {
        match self.clock.pass_comment(number, line) {
            Ok(None) => Ok(()),
            Ok(Some(gap)) => tell_gap(gap, &mut self.sink),
            Err(fault) => Err(self.stop(HeardFault::Clock(fault))),
        }
    }

    fn datagram(&mut self, event: &Event, _core: &Core) -> Result<(), Stopped> {
        match event {
            Event::Control(source, bytes) => {
                match self.pair.control(self.alloc, *source, bytes.as_slice()) {
                    Ok(_) => Ok(()),
                    Err(_) => Err(self.stop(HeardFault::NoMemory)),
                }
            }
            Event::Media(port, source, bytes) => {
                self.pair.media(*port, *source, bytes.as_slice());
                Ok(())
            }
            Event::Tick => Ok(()),
        }
    }

    fn ticks(&mut self, _core: &Core, count: u64) -> Result<(), Stopped> {
        if count > MAX_TICKS {
            return Err(self.stop(HeardFault::Clock(ClockFault::TooManyTicks)));
        }
        for _ in 0..count {
            self.pass_tick()?;
        }
        Ok(())
    }
}
