ghost use Rattle.std.specs.Prelude.{◌≡◌, ◌+◌, ◌*◌, ◌<◌, ◌≤◌, min, IfNone, IfSome};
ghost use Rattle.std.specs.Duration.{as_nanos};
ghost use Rattle.mg_clock.specs.Due.{IsTimeTo, period, steps_due, ticks_due};

use std::time::Duration;

/// The time between ticks, 20 ms, in nanoseconds.
pub(crate) const PERIOD: u128 = 20_000_000;

/// The maximum number of polls per 20 ms.
pub const MAX_POLLS: u16 = 1000;

/// Returns the number of steps due by `now`, at `polls` polls per 20 ms. `now` is in nanoseconds since the start.
pub fn steps_due(polls: u64, now: u64) -> u64
    requires few { polls ≤ MAX_POLLS }
    ensures value { result ≡ steps_due polls now }
    ensures small { result ≤ 922337203685477 }
{
    (u128::from(now) * u128::from(polls) / PERIOD) as u64
}

/// Returns the time from `now` until the next step is due, if `before` steps come before it. Returns zero if the step
/// is already due.
#[tactic(auto, using(crate::proofs::DueLemmas::soon))]
pub fn time_to_step(polls: u64, before: u64, now: u64) -> Duration
    requires some { 0 < polls }
    requires few { polls ≤ MAX_POLLS }
    ensures value { IsTimeTo polls before now (as_nanos result) }
{
    let next = u128::from(before) + 1;
    let point = (next * PERIOD).div_ceil(u128::from(polls));
    Duration::from_nanos_u128(point.saturating_sub(u128::from(now)))
}

/// Returns the time from `now` until a tick is due, or `None` if the tick is already due.
pub fn time_to_tick(tick: u64, now: u64) -> Option<Duration>
    ensures later { IfSome result (λ time. (now < tick * period) × (now + as_nanos time ≡ tick * period)) }
    ensures due { IfNone result (tick ≤ ticks_due now) }
{
    let point = u128::from(tick) * PERIOD;
    match point.checked_sub(u128::from(now)) {
        None | Some(0) => None,
        Some(time) => Some(Duration::from_nanos_u128(time)),
    }
}
