//! The program `mg_pace`, which drives a gateway in real time.
//!
//! Driven by the monotonic clock, the program writes a `tick` line every 20 ms and `poll` lines in between. So `mg_pace
//! | mg_bridge serve` runs a gateway in real time.
#![tactic(auto)]

use mg_clock::SystemWatch;
use mg_options::program_arguments;
use mg_pacer::program;
use std::process::ExitCode;

fn main(rt: HostRuntime) -> ExitCode {
    let mut errors = rt.stderr();
    let words = match program_arguments(&rt, &mut errors) {
        Ok(words) => words,
        Err(status) => return ExitCode::from(status.code()),
    };
    let mut watch = SystemWatch::new(&rt);
    let mut output = rt.stdout();
    let code = program(
        rt.alloc(),
        words.as_slice(),
        &mut watch,
        &mut output,
        &mut errors,
    );
    ExitCode::from(code)
}
