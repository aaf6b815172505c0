ghost use Rattle.std.specs.Prelude.{◌≡◌, ◌<◌, ◌≤◌, IfErr, IfOk, Ok, codes, map, max, min, unwrap_or};
ghost use Rattle.clap.specs.Words.{app_of, found_of, kind_of, rows_of, rule_of};
ghost use Rattle.mg_options.specs.Requested.{IsRefused};
ghost use Rattle.mg_options.specs.Numbers.{number_rule};
ghost use Rattle.mg_pacer.specs.Options.{requested, command_line, options_in};

use clap::error::ErrorKind;
use clap::{Arg, ArgMatches, Command, Error, value_parser};
use mg_clock::MAX_POLLS;
use mg_options::{long_number, long_value, program_command, short_value};
use std::alloc::Global;
use std::convert::AsStr;

/// The options of a run.
#[derive(Clone, Copy, Debug, PartialEq, Eq)]
pub struct Options {
    /// The number of ticks after which the run ends. The default is `u64::MAX`, which is never reached.
    pub ticks: u64,
    /// The number of polls per 20 ms, from 1 to 1000.
    pub polls: u16,
}

/// Creates the option for the number of ticks.
fn ticks_option<'a>(alloc: Global) -> Arg<'a>
    ensures rule { rule_of result ≡ number_rule (codes "ticks") 0 4294967295 }
{
    long_number(alloc, "ticks").help(
        "Number of ticks before it writes quit and ends, 0–4294967295 [default: unlimited]",
    )
}

/// Creates the option for the number of polls per 20 ms.
fn polls_option<'a>(alloc: Global) -> Arg<'a>
    ensures rule { rule_of result ≡ number_rule (codes "polls") 1 1000 }
{
    Arg::new(alloc, "polls")
        .long("polls")
        .value_name("NUMBER")
        .value_parser(value_parser!(u16).range(1..=i64::from(MAX_POLLS)))
        .help("Number of polls per 20 ms, 1–1000 [default: 4]")
}

/// Creates the program's command line.
fn command<'a>(alloc: Global) -> Result<Command<'a>, Error>
    ensures app { IfOk result (λ command. app_of command ≡ command_line) }
    ensures memory { IfErr result (λ error. kind_of error ≡ ErrorKind.OutOfMemory) }
{
    let about = "Write a line `tick` every 20 ms, with lines `poll` in between";
    let command = program_command(alloc, "mg_pace", about)
        .arg(ticks_option(alloc))?
        .arg(polls_option(alloc))?;
    Ok(command)
}

/// Returns the requested number of ticks, or the default.
fn ticks_wanted(named: Option<u32>) -> u64
    ensures value { result ≡ unwrap_or named 18446744073709551615 }
{
    named.map_or(u64::MAX, u64::from)
}

/// Clamps a number of polls to the allowed range.
fn bounded_polls(polls: u16) -> u16
    ensures value { result ≡ max 1 (min 1000 polls) }
{
    polls.clamp(1, MAX_POLLS)
}

/// Returns the options that were given, with defaults for the options that weren't.
fn options_of(matches: &ArgMatches<'_>) -> Options
    ensures value { result ≡ options_in (rows_of (found_of matches.now)) }
{
    Options {
        ticks: ticks_wanted(long_value(matches, "ticks")),
        polls: bounded_polls(short_value(matches, "polls").unwrap_or(4)),
    }
}

/// Returns the options of the run that the arguments request. The arguments don't include the program's name.
///
/// If the arguments don't request a run, the caller must report the error. The error is a usage error, a request for
/// help or the version, or lack of memory.
pub fn requested_options<'a, S: AsStr>(alloc: Global, words: &'a [S]) -> Result<Options, Error>
    ensures requested { IfOk result (λ options. requested (map S.text words.now) ≡ Ok options) }
    ensures some { IfOk result (λ options. 0 < options.polls) }
    ensures few { IfOk result (λ options. options.polls ≤ MAX_POLLS) }
    ensures refused { IfErr result (λ error. IsRefused (requested (map S.text words.now)) (kind_of error)) }
{
    let matches = command(alloc)?.try_get_matches_from(words)?;
    Ok(options_of(&matches))
}
