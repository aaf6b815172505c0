//! Tests of `mg_pace` on a scripted clock.

use mg_clock::{ClockFailed, MAX_POLLS, Watch};
use mg_pacer::{Options, PaceFault, Schedule, pace};
use std::alloc::Global;
use std::time::Duration;

/// A clock that returns the given readings, and then fails.
#[derive(Drop)]
struct Script<'a> {
    times: &'a [u64],
    at: usize,
}

impl<'a> Watch for Script<'a> {
    ghost use Rattle.std.specs.Prelude.{◌≤◌, Some, length, take};

    ghost readings = { λ s. Some (take s.at s.times.now) };

    ghost Fails = { λ s. length s.times.now ≤ s.at };

    fn now(&mut self) -> Result<u64, ClockFailed> {
        if self.at < self.times.len() {
            let time = self.times[self.at];
            self.at += 1;
            return Ok(time);
        }
        Err(ClockFailed)
    }

    fn wait(&mut self, _time: Duration) -> bool {
        false
    }
}

/// Returns the result of a run, and the text that the run writes to each of its two outputs.
fn outcome(
    alloc: Global,
    options: Options,
    times: &[u64],
) -> (Result<(), PaceFault>, Vec<u8>, Vec<u8>) {
    let mut watch = Script { times, at: 0 };
    let mut output = Vec::new(alloc);
    let mut errors = Vec::new(alloc);
    let mut result = Err(PaceFault::Clock);
    if 0 < options.polls && options.polls <= MAX_POLLS {
        result = pace(options, &mut watch, &mut output, &mut errors);
    }
    (result, output, errors)
}

const MS: u64 = 1_000_000;

const ENDLESS: Options = Options {
    ticks: u64::MAX,
    polls: 1,
};

/// Counts the `tick` lines of text without a `quit` line.
fn ticks(lines: &[u8]) -> usize {
    let mut count: usize = 0;
    for byte in lines {
        if *byte == b't' {
            count = count.saturating_add(1);
        }
    }
    count
}

fn ticks_at_each_point(alloc: Global) -> bool {
    let options = Options { ticks: 2, polls: 2 };
    let times = [0, 9_999_999, 10 * MS, 19_999_999, 20 * MS, 30 * MS, 40 * MS];
    let (result, output, errors) = outcome(alloc, options, &times);
    let lines = b"poll\npoll\ntick\npoll\npoll\ntick\nquit\n";
    result == Ok(()) && output.as_slice() == lines.as_slice() && errors.is_empty()
}

fn catches_up_fifty_ticks(alloc: Global) -> bool {
    let (result, output, errors) = outcome(alloc, ENDLESS, &[20 * MS, 1020 * MS, 2100 * MS]);
    result == Err(PaceFault::Clock)
        && output.len() == 101 * b"poll\ntick\n".len()
        && ticks(output.as_slice()) == 101
        && errors.as_slice() == b"skipped 4 ticks\n".as_slice()
}

fn continues_when_the_clock_goes_back(alloc: Global) -> bool {
    let (_, output, _) = outcome(alloc, ENDLESS, &[40 * MS, 0, 59_999_999, 60 * MS]);
    output.as_slice() == b"poll\ntick\npoll\ntick\npoll\ntick\n".as_slice()
}

fn waits_for_the_next_step() -> bool {
    let mut schedule = Schedule::new(3);
    let first = schedule.wait(0).as_nanos();
    schedule.advance(6_666_667);
    first == 6_666_667
        && schedule.wait(7 * MS).as_nanos() == 6_333_334
        && schedule.wait(30 * MS).as_nanos() == 0
}

#[test]
fn paces(rt: HostRuntime) {
    assert!(rt; ticks_at_each_point(rt.alloc()));
    assert!(rt; catches_up_fifty_ticks(rt.alloc()));
    assert!(rt; continues_when_the_clock_goes_back(rt.alloc()));
    assert!(rt; waits_for_the_next_step());
}
