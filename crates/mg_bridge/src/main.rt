//! The program `mg_bridge`: a conference media gateway controlled by Megaco/H.248.
//!
//! `mg_bridge replay` runs a script of events from standard input, and prints a line for each answer and each packet.
//!
//! `mg_bridge live` runs a gateway on UDP ports in real time.
//!
//! `mg_bridge serve` runs the same gateway, driven by lines on standard input. `poll` receives waiting datagrams,
//! `tick` advances by 20 ms and sends the packets, `stats` prints the counts, and `quit` ends the run. Another program,
//! `mg_pace`, writes `poll` and `tick` when the clock says that they are due.
//!
//! `mg_bridge heard` reports who could hear whom, according to a journal or a recording. `check` asks whether a gateway
//! answers. `seal` and `verify` add and check seals.
//!
//! With `--record`, `live` and `serve` print a recording: a script of all events. While they run, they don't wait for
//! the readers of standard output and standard error. All other subcommands wait for these readers.
#![tactic(auto)]

mod live_output;
mod machine;
mod standard;
#[cfg(test)]
mod tests;

use crate::live_output::LiveOutput;
use crate::machine::SystemHost;
use crate::standard::Standard;
use mg_core::RunFault;
use mg_host::{Outside, System};
use mg_options::{Status, program_arguments};
use mg_outlet::{Outlet, OutletFault, Overflow, SystemPipe};
use mg_program::{Ahead, Ended, program};
use std::io::{self, ErrorKind, Stderr, Write};
use std::process::ExitCode;

/// The maximum number of bytes queued for standard output: enough for 14 seconds of a recording with 256 callers.
const OUTPUT_LIMIT: usize = 64 << 20;

/// The maximum number of bytes queued for standard error.
const ERRORS_LIMIT: usize = 1 << 20;

/// Runs the program on the operating system, with this output, these outlets for errors and reports, and these
/// arguments.
fn run<'a, O: Write + Drop, E: Write + Drop>(
    rt: &'a HostRuntime,
    output: O,
    (errors, reports): (E, E),
    words: &[String],
) -> Ended<Standard<'a, O, E>> {
    let system = System {
        alloc: rt.alloc(),
        net: rt,
        clock: rt,
        random: rt,
        files: rt,
    };
    let outside = Outside {
        host: SystemHost::new(rt, rt),
        input: Ahead::new(rt.stdin()),
        output,
        errors,
        reports,
    };
    program(&system, outside, words)
}

/// Creates an outlet for lines on standard error.
fn error_outlet(rt: &HostRuntime) -> Result<Outlet<SystemPipe<Stderr>>, OutletFault> {
    Outlet::watching(rt, rt.alloc(), rt.stderr(), ERRORS_LIMIT, Overflow::Skip)
}

/// Returns the exit status of a program: `code`, or that of a failed write if the program succeeded but its last output
/// couldn't be written. In that case, the failure is reported to `errors`.
fn status_at_end<E: Write>(code: u8, passed: &io::Result<()>, errors: &mut E) -> u8 {
    if code != Status::Done.code() || passed.is_ok() {
        return code;
    }
    let _ = writeln!(errors, "{}", RunFault::Write);
    Status::Failed.code()
}

/// Returns the exit status of a gateway that can't create its outlets.
fn status_without_outlets(fault: &OutletFault) -> Status {
    match fault {
        OutletFault::Memory { .. } => Status::NoMemory,
        OutletFault::Watch { error, .. } if error.kind() == ErrorKind::OutOfMemory => {
            Status::NoMemory
        }
        OutletFault::Watch { .. } => Status::Failed,
    }
}

/// Runs a gateway without waiting for its readers. When `serve` ends, waits until all of its output has been written.
fn run_gateway(rt: &HostRuntime, words: &[String], is_serve: bool) -> Result<u8, OutletFault> {
    let outlet = Outlet::watching(rt, rt.alloc(), rt.stdout(), OUTPUT_LIMIT, Overflow::End)?;
    let output = LiveOutput::new(outlet, error_outlet(rt)?);
    let Ended {
        mut outside,
        status,
    } = run(rt, output, (error_outlet(rt)?, error_outlet(rt)?), words);
    let passed = if is_serve {
        outside.output.finish()
    } else {
        outside.output.flush()
    };
    let code = status_at_end(status.code(), &passed, &mut outside.errors);
    let _ = outside.reports.flush();
    let _ = outside.errors.flush();
    Ok(code)
}

/// Runs a subcommand that isn't a gateway.
fn run_plainly(rt: &HostRuntime, words: &[String]) -> u8 {
    run(rt, rt.stdout(), (rt.stderr(), rt.stderr()), words)
        .status
        .code()
}

fn main(rt: HostRuntime) -> ExitCode {
    let mut errors = rt.stderr();
    let words = match program_arguments(&rt, &mut errors) {
        Ok(words) => words,
        Err(status) => return ExitCode::from(status.code()),
    };
    let subcommand = words.first().map(|word| word.as_str());
    let is_serve = subcommand == Some("serve");
    if !is_serve && subcommand != Some("live") {
        return ExitCode::from(run_plainly(&rt, words.as_slice()));
    }
    match run_gateway(&rt, words.as_slice(), is_serve) {
        Ok(code) => ExitCode::from(code),
        Err(fault) => {
            let _ = writeln!(errors, "{fault}");
            ExitCode::from(status_without_outlets(&fault).code())
        }
    }
}
