//! Tests with random numbers that count up, with random numbers that fail, and with a clock that fails.

use super::equality::assert_equal;
use super::free_ports;
use crate::machine::SystemHost;
use mg_core::Config;
use mg_host::{Environment, Outside, System};
use mg_program::{Ahead, Ended, program};
use mg_service::ConfigOptions;
use std::cell::Cell;
use std::io::{self, ErrorKind, Stdin};
use std::marker::PhantomData;
use std::random::RandomSource;
use std::test::Fail;
use std::time::{Clock, Duration};

/// A random source whose bytes count up from 1, or that has no bytes.
#[derive(Drop)]
struct Counting {
    works: bool,
}

impl RandomSource for Counting {
    fn fill_bytes(&self, buf: &mut [u8]) -> io::Result<()> {
        if !self.works {
            return Err(io::Error::from(ErrorKind::Unsupported));
        }
        let mut next = 0u8;
        for byte in buf.iter_mut() {
            next = next.wrapping_add(1);
            *byte = next;
        }
        Ok(())
    }
}

/// A clock whose monotonic time can be read once, and whose date can't be read.
#[derive(Drop)]
struct FailingClock {
    works: Cell<bool>,
}

impl FailingClock {
    fn new() -> Self {
        FailingClock {
            works: Cell::new(true),
        }
    }
}

impl Clock for FailingClock {
    fn monotonic(&self) -> io::Result<Duration> {
        if self.works.replace(false) {
            return Ok(Duration::ZERO);
        }
        Err(io::Error::from(ErrorKind::Other))
    }

    fn since_1970(&self) -> io::Result<Duration> {
        Err(io::Error::from(ErrorKind::Other))
    }
}

/// An environment with these random numbers and this clock.
struct Counted<'a> {
    of: PhantomData<&'a HostRuntime>,
}

impl<'a> Environment for Counted<'a> {
    type Net = HostRuntime;

    type Clock = FailingClock;

    type Random = Counting;

    type Files = HostRuntime;

    type Host = SystemHost<'a, FailingClock>;

    type Input = Ahead<Stdin>;

    type Output = Vec<u8>;

    type Errors = Vec<u8>;

    type Reports = Vec<u8>;
}

/// The exit status of a run of the program, with its output and error messages.
#[derive(Drop)]
struct Outcome {
    status: u8,
    output: Vec<u8>,
    errors: Vec<u8>,
}

/// Runs the program with these arguments, this source of random numbers and this clock.
fn run_with<'a>(
    rt: &'a HostRuntime,
    random: &'a Counting,
    clock: &'a FailingClock,
    words: &[&str],
) -> Outcome {
    let alloc = rt.alloc();
    let system: System<'a, Counted<'a>> = System {
        alloc,
        net: rt,
        clock,
        random,
        files: rt,
    };
    let outside = Outside {
        host: SystemHost::new(rt, clock),
        input: Ahead::new(rt.stdin()),
        output: Vec::new(alloc),
        errors: Vec::new(alloc),
        reports: Vec::new(alloc),
    };
    let Ended { outside, status } = program(&system, outside, words);
    Outcome {
        status: status.code(),
        output: outside.output,
        errors: outside.errors,
    }
}

/// Options of a configuration with this sequence number, and nothing else.
fn with_sequence(sequence: Option<u16>) -> ConfigOptions {
    ConfigOptions {
        address: None,
        control_address: None,
        control_port: None,
        base_port: None,
        slots: None,
        first_termination: None,
        first_context: None,
        ssrc: None,
        sequence,
        timestamp: None,
    }
}

#[test]
fn draws_the_numbers_that_no_option_gives(rt: HostRuntime) -> Result<(), Fail> {
    for (sequence, wanted) in [(None, 1286), (Some(0), 0)] {
        let options = with_sequence(sequence);
        let drawn = options.draw(&Counting { works: true }, &Config::default())?;
        let found = (drawn.ssrc, drawn.sequence, drawn.timestamp);
        assert_equal(&rt, found, (16909060, wanted, 117967114));
    }
    Ok(())
}

/// No gateway can bind its ports, because 192.0.2.1 isn't an address of this machine.
#[test]
fn reports_a_lack_of_random_numbers(rt: HostRuntime) {
    let none = Counting { works: false };
    let words = [
        "live",
        "--bind-address=192.0.2.1",
        "--ssrc=1",
        "--timestamp=2",
        "--sequence=3",
    ];
    for (words, status, message) in [
        (&words[..4], 3, b"cannot draw random numbers: ".as_slice()),
        (&words, 5, b"cannot bind 192.0.2.1:2944: "),
    ] {
        let clock = FailingClock::new();
        let done = run_with(&rt, &none, &clock, words);
        assert_equal(&rt, done.status, status);
        assert!(rt; done.output.is_empty() && done.errors.as_slice().starts_with(message));
    }
}

#[test]
fn ends_if_the_clock_fails(rt: HostRuntime) -> Result<(), Fail> {
    let (base, control) = free_ports(&rt)?;
    let control = format!(in rt.alloc(); "--control-port={control}")?;
    let base = format!(in rt.alloc(); "--base-port={base}")?;
    let words = ["live", control.as_str(), base.as_str(), "--slots=1"];
    let random = Counting { works: true };
    let clock = FailingClock::new();
    let done = run_with(&rt, &random, &clock, &words);
    assert_equal(&rt, done.status, 3);
    assert_equal(&rt, done.output.as_slice(), b"ready\n".as_slice());
    assert_equal(&rt, done.errors.as_slice(), b"read failed\n".as_slice());
    Ok(())
}
