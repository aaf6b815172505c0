ghost use Rattle.std.specs.Prelude.{◌≡◌, ◌⊎◌, ◌+◌, ◌-◌, ◌^◌, ℕ, true, IfErr, IfNone, IfOk, IfSome};
ghost use Rattle.mg_clock.specs.Ticks.{IsReadEarly, IsReadUntilDue, StepBegins, clock_seen, timing_of};

use crate::clock_failed::ClockFailed;
use crate::due::{PERIOD, time_to_tick};
use crate::step::Step;
use crate::timing::Timing;
use crate::watch::Watch;

/// The maximum number of messages that a schedule reports before each tick: one per millisecond.
const MAX_MESSAGES: u16 = 20;

/// A schedule of ticks, driven by a clock. The k-th tick is due `k * 20 ms` after the clock's start. It begins at the
/// first reading, after the previous tick began, at which it is due.
#[derive(Clone, Copy, Debug, PartialEq, Eq)]
pub struct TickSchedule {
    /// The number of ticks that have begun.
    pub ticks: u64,
    /// How late a tick may be, in ticks of 20 ms, and still have its packets sent.
    pub allowed: u16,
    /// The number of messages reported since the last tick began.
    pub messages: u16,
}

impl TickSchedule {
    /// Creates a schedule that begins at the start of a clock. A tick that is more than `allowed` ticks late is
    /// [`Timing::Late`].
    pub fn new(allowed: u16) -> Self
        ensures value { result ≡ record { ticks = 0; allowed = allowed; messages = 0 } }
    {
        TickSchedule {
            ticks: 0,
            allowed,
            messages: 0,
        }
    }

    /// Waits until the next tick is due, and then begins it; returns early if a message arrives. After a delay, all
    /// missed ticks are due at once. At most 20 messages are reported before each tick.
    ///
    /// Fails if the clock can't be read, or if 18,446,744,073,709,551,615 ticks have begun. Also fails if the clock was
    /// read that many times in a row before the tick was due.
    pub fn next_step<K: Watch>(&mut self, watch: &mut K) -> Result<Step, ClockFailed>
        ensures begins { IfOk result (λ step. StepBegins self.old
            (clock_seen (K.readings watch.old) (K.waits watch.old))
            (clock_seen (K.readings watch.new) (K.waits watch.new)) step self.new) }
        ensures fails { IfErr result (λ failed. K.Fails watch.new ⊎ (self.old.ticks ≡ 2 ^ 64 - 1
            ⊎ IsReadEarly (self.old.ticks + 1) (2 ^ 64 - 1) (clock_seen (K.readings watch.old) (K.waits watch.old))
            (clock_seen (K.readings watch.new) (K.waits watch.new)))) }
        ensures unchanged { IfErr result (λ failed. self.new ≡ self.old) }
    {
        let Some(tick) = self.ticks.checked_add(1) else {
            return Err(ClockFailed);
        };
        let reports = self.messages < MAX_MESSAGES;
        let Some(now) = wait_until_due(tick, reports, watch)? else {
            self.messages += 1;
            return Ok(Step::Message);
        };
        self.ticks = tick;
        self.messages = 0;
        Ok(Step::Tick(timing_of(tick, self.allowed, now)))
    }
}

/// Waits until a tick is due. Returns the first reading at which the tick is due, or `None` if `reports` is true and a
/// message arrived first.
fn wait_until_due<K: Watch>(
    tick: u64,
    reports: bool,
    watch: &mut K,
) -> Result<Option<u64>, ClockFailed>
    ensures due { IfOk result (λ found. IfSome found (λ now. IsReadUntilDue tick now
        (clock_seen (K.readings watch.old) (K.waits watch.old))
        (clock_seen (K.readings watch.new) (K.waits watch.new)))) }
    ensures message { IfOk result (λ found. IfNone found ((reports ≡ true) × ((count : ℕ) × IsReadEarly tick count
        (clock_seen (K.readings watch.old) (K.waits watch.old))
        (clock_seen (K.readings watch.new) (K.waits watch.new))))) }
    ensures fails { IfErr result (λ failed. K.Fails watch.new ⊎
        IsReadEarly tick (2 ^ 64 - 1) (clock_seen (K.readings watch.old) (K.waits watch.old))
        (clock_seen (K.readings watch.new) (K.waits watch.new))) }
{
    for _ in 0..u64::MAX {
        let now = watch.now()?;
        let Some(time) = time_to_tick(tick, now) else {
            return Ok(Some(now));
        };
        if watch.wait(time) && reports {
            return Ok(None);
        }
    }
    Err(ClockFailed)
}

/// Returns whether a tick that begins at time `now` is on time or late.
fn timing_of(tick: u64, allowed: u16, now: u64) -> Timing
    ensures value { result ≡ timing_of tick allowed now }
{
    if u128::from(tick) + u128::from(allowed) < u128::from(now) / PERIOD {
        Timing::Late
    } else {
        Timing::OnTime
    }
}
