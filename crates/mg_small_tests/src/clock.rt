//! Tests of the times at which ticks begin and steps of `mg_pace` are due.

use crate::equality::assert_equal;
use mg_clock::{
    ClockFailed, Step, TickSchedule, Timing, Watch, steps_due, time_to_step, time_to_tick,
};
use std::time::Duration;

const MS: u64 = 1_000_000;

/// A clock that returns the given readings, and then fails. It records how long it waits. A message ends each of its
/// first `messages` waits.
#[derive(Drop)]
struct Script<'a> {
    times: &'a [u64],
    waited: u64,
    messages: u16,
}

impl<'a> Watch for Script<'a> {
    fn now(&mut self) -> Result<u64, ClockFailed> {
        let [time, rest @ ..] = self.times else {
            return Err(ClockFailed);
        };
        self.times = rest;
        Ok(*time)
    }

    fn wait(&mut self, time: Duration) -> bool {
        let time = u64::try_from(time.as_nanos()).unwrap_or(u64::MAX);
        self.waited = self.waited.saturating_add(time);
        let has_message = self.messages > 0;
        self.messages = self.messages.saturating_sub(1);
        has_message
    }
}

#[test]
fn begins_each_tick_when_it_is_due(rt: HostRuntime) {
    let mut watch = Script {
        times: &[0, 15 * MS, 20 * MS, 90 * MS, 90 * MS, 90 * MS, 99 * MS],
        waited: 0,
        messages: 0,
    };
    let mut schedule = TickSchedule::new(1);
    // Waiting for the tick at 20 ms takes two waits. At 90 ms the ticks at 40, 60 and 80 ms are due, the first of them
    // more than one tick late.
    for (timing, waited) in [
        (Timing::OnTime, 25 * MS),
        (Timing::Late, 25 * MS),
        (Timing::OnTime, 25 * MS),
        (Timing::OnTime, 25 * MS),
    ] {
        assert_equal(&rt, schedule.next_step(&mut watch), Ok(Step::Tick(timing)));
        assert_equal(&rt, watch.waited, waited);
    }
    assert_equal(&rt, schedule.next_step(&mut watch), Err(ClockFailed));
    assert_equal(&rt, watch.waited, 26 * MS);
    assert_equal(&rt, schedule.ticks, 4);
}

#[test]
fn reports_at_most_twenty_messages_before_a_tick(rt: HostRuntime) {
    let times = [MS; 21];
    let mut watch = Script {
        times: &times,
        waited: 0,
        messages: 21,
    };
    let mut schedule = TickSchedule::new(5);
    for _ in 0..20 {
        assert_equal(&rt, schedule.next_step(&mut watch), Ok(Step::Message));
    }
    // The last message is not reported, because 20 were reported already. So the clock is read again, and fails.
    assert_equal(&rt, schedule.next_step(&mut watch), Err(ClockFailed));
    assert_equal(&rt, watch.messages, 0);
    let times = [20 * MS, 21 * MS];
    let mut watch = Script {
        times: &times,
        waited: 0,
        messages: 1,
    };
    assert_equal(
        &rt,
        schedule.next_step(&mut watch),
        Ok(Step::Tick(Timing::OnTime)),
    );
    assert_equal(&rt, schedule.next_step(&mut watch), Ok(Step::Message));
}

#[test]
fn reports_what_is_due(rt: HostRuntime) {
    assert_equal(&rt, steps_due(3, 6_666_666), 0);
    assert_equal(&rt, steps_due(3, 6_666_667), 1);
    assert_equal(&rt, steps_due(1000, u64::MAX), 922_337_203_685_477);
    assert_equal(&rt, time_to_step(3, 0, 0).as_nanos(), 6_666_667);
    assert_equal(&rt, time_to_step(3, 1, 30 * MS).as_nanos(), 0);
    assert_equal(
        &rt,
        time_to_tick(2, 39 * MS),
        Some(Duration::from_millis(1)),
    );
    assert_equal(&rt, time_to_tick(2, 40 * MS), None);
    assert_equal(&rt, time_to_tick(0, 0), None);
}

#[test]
fn is_late_after_the_ticks_that_are_allowed(rt: HostRuntime) {
    for (ticks, allowed, now, timing) in [
        (9, 5, 319_999_999, Timing::OnTime),
        (9, 5, 320 * MS, Timing::Late),
        (9, 6, 320 * MS, Timing::OnTime),
        (9, u16::MAX, u64::MAX, Timing::Late),
    ] {
        let mut schedule = TickSchedule {
            ticks,
            allowed,
            messages: 0,
        };
        let times = [now];
        let mut watch = Script {
            times: &times,
            waited: 0,
            messages: 0,
        };
        assert_equal(&rt, schedule.next_step(&mut watch), Ok(Step::Tick(timing)));
    }
}
