ghost use Rattle.std.specs.Prelude.{◌≡◌, map};
ghost use Rattle.mg_options.specs.Status.{code_of};
ghost use Rattle.mg_options.specs.Ends.{EndsWith};
ghost use Rattle.mg_arguments.specs.Options.{requested};
ghost use Rattle.mg_hearing.specs.Absence.{Receives};
ghost use Rattle.mg_program.specs.Program.{Runs};

use crate::check::check;
use crate::ended::Ended;
use crate::live::live;
use crate::replay::replay;
use crate::serve::serve;
use crate::verify::verify;
use mg_arguments::{Invocation, requested_run};
use mg_hearing::{LookAhead, audible, heard, watch};
use mg_host::{Environment, Outside, System};
use mg_options::{Status, report_error};
use mg_sealing::seal;
use mg_start::Requested;
use std::convert::AsStr;

/// Runs what the arguments request. Returns the exit status, and the host and the streams.
fn run<E: Environment>(
    system: &System<'_, E>,
    outside: Outside<E>,
    invocation: &Invocation,
) -> Ended<E>
where
    E::Input: LookAhead,
    ensures runs { Runs E.Input.remaining E.Output.contents (result.outside.errors ≡ outside.errors)
        (Receives E.Errors.contents outside.errors result.outside.errors) (E.Host.calls outside.host)
        (E.Host.calls result.outside.host) (E.Host.stopped result.outside.host) outside.input result.outside.input
        outside.output result.outside.output invocation.now result.status }
{
    let mut outside = outside;
    match invocation {
        Invocation::Replay(config, shown) => {
            let status = replay(system, &mut outside, *config, *shown);
            Ended { outside, status }
        }
        Invocation::Serve(config, service) => {
            let config = *config;
            serve(
                system,
                outside,
                Requested {
                    config,
                    service,
                    draws: false,
                },
            )
        }
        Invocation::Live(config, service, late) => {
            let config = *config;
            live(
                system,
                outside,
                Requested {
                    config,
                    service,
                    draws: true,
                },
                *late,
            )
        }
        Invocation::Check(gateway, source) => {
            let status = check(system, &mut outside, *gateway, *source);
            Ended { outside, status }
        }
        Invocation::Heard(request) => {
            let status = heard(
                &mut outside.host,
                system.files,
                system.alloc,
                request,
                &mut outside.input,
                &mut outside.output,
                &mut outside.errors,
            );
            Ended { outside, status }
        }
        Invocation::Watch(request) => {
            let status = watch(
                &mut outside.host,
                system.files,
                system.alloc,
                request,
                &mut outside.input,
                &mut outside.output,
                &mut outside.errors,
            );
            Ended { outside, status }
        }
        Invocation::Audible(request) => {
            let status = audible(
                &mut outside.host,
                system.files,
                system.alloc,
                request,
                &mut outside.input,
                &mut outside.output,
                &mut outside.errors,
            );
            Ended { outside, status }
        }
        Invocation::Verify(file, later) => {
            let status = verify(system.alloc, &mut outside, file, later.as_slice());
            Ended { outside, status }
        }
        Invocation::Seal => {
            let status = seal(
                system.alloc,
                &mut outside.input,
                &mut outside.output,
                &mut outside.errors,
            );
            Ended { outside, status }
        }
    }
}

/// Runs the program with these arguments. The arguments don't include the program's name. Returns the exit status, and
/// the host and the streams.
///
/// The status is 0 on success, 1 for a bad script line, and 2 for invalid arguments, an invalid configuration or a
/// gateway that doesn't answer. It is 3 for faults of the system that have no status of their own: for example, a read
/// or a write failed, the clock can't be read, or there are no random numbers. It is 4 if memory ran out, 5 for a port
/// that can't be bound, and 6 for a journal or another file that can't be used. These faults are reported to `errors`,
/// and so is a gateway that doesn't answer. A gateway's periodic reports go to `reports`.
///
/// Some statuses are answers. For a question about a given time, 1 means that the talker could not be heard, and 2 that
/// the script doesn't say. For any question about who could be heard, 2 also means that the gateway never had the
/// talker or the listener in the question. A message then names who is missing. For rules, 1 means that the script
/// breaks a rule. For a check of seals, 1 means that a text was changed, or that a file doesn't follow the previous
/// one. For a check of a single text, 2 means that the text has no seals.
pub fn program<E: Environment, S: AsStr>(
    system: &System<'_, E>,
    outside: Outside<E>,
    words: &[S],
) -> Ended<E>
where
    E::Input: LookAhead,
    // The status says whether the program did what the arguments request and, if not, why.
    ensures ends { EndsWith
        (Runs E.Input.remaining E.Output.contents (result.outside.errors ≡ outside.errors)
        (Receives E.Errors.contents outside.errors result.outside.errors) (E.Host.calls outside.host)
        (E.Host.calls result.outside.host) (E.Host.stopped result.outside.host) outside.input result.outside.input
        outside.output result.outside.output)
        (requested (map S.text words.now)) Status.Failed
        ((result.outside.input ≡ outside.input) × (E.Host.calls result.outside.host ≡ E.Host.calls outside.host))
        (result.outside.errors ≡ outside.errors) outside.output result.outside.output (code_of result.status) }
{
    let mut outside = outside;
    match requested_run(system.alloc, words) {
        Ok(invocation) => run(system, outside, &invocation),
        Err(error) => {
            let status = report_error(
                &error,
                Status::Failed,
                &mut outside.output,
                &mut outside.errors,
            );
            Ended { outside, status }
        }
    }
}
