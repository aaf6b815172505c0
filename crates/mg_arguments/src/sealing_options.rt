//! The options of `mg_bridge verify` and `mg_bridge seal`.

ghost use Rattle.std.specs.Prelude.{◌≡◌, ◌∷◌, [], Err, IfErr, IfOk, Ok};
ghost use Rattle.clap.specs.declared.error.kind.ErrorKind.TheVariants.{ValueValidation};
ghost use Rattle.clap.specs.Words.{app_of, found_of, kind_of, rows_of};
ghost use Rattle.mg_arguments.specs.aids.Options.{Refuses};
ghost use Rattle.mg_arguments.specs.Options.{seal_line, verify_in, verify_line};

use crate::heard_options::{files_argument, later_in};
use crate::invocation::Invocation;
use crate::option_fault::OptionFault;
use crate::options::file_of;
use clap::error::ErrorKind;
use clap::{ArgMatches, Command, Error};
use std::alloc::Global;

/// Creates the subcommand that checks seals.
pub(crate) fn verify_command<'a>(alloc: Global) -> Result<Command<'a>, Error>
    ensures app { IfOk result (λ command. app_of command ≡ verify_line) }
    ensures memory { IfErr result (λ error. kind_of error ≡ ErrorKind.OutOfMemory) }
{
    let command = Command::new(alloc, "verify")
        .about("Check the seals of a journal or a recording")
        .arg(files_argument(alloc))?;
    Ok(command)
}

/// Creates the subcommand that adds seals to a recording.
pub(crate) fn seal_command<'a>(alloc: Global) -> Command<'a>
    ensures app { app_of result ≡ seal_line }
{
    Command::new(alloc, "seal").about(
        "Copy a recording from standard input to standard output, with a seal every minute",
    )
}

/// Returns the check of seals that the options request.
#[tactic(auto, using(crate::proofs::SealingOptionLemmas::refuses_file, crate::proofs::SealingOptionLemmas::refuses_later, crate::proofs::SealingOptionLemmas::verify_is))]
pub(crate) fn verify_in(alloc: Global, matches: &ArgMatches<'_>) -> Result<Invocation, OptionFault>
    ensures run { IfOk result (λ run. verify_in (rows_of (found_of matches.now)) ≡ Ok run) }
    ensures refused { IfErr result (λ fault. Refuses fault (verify_in (rows_of (found_of matches.now)))) }
{
    let file = match file_of("file", matches) {
        Ok(file) => file,
        Err(fault) => return Err(OptionFault::Invalid(fault.script_message())),
    };
    match later_in(alloc, matches) {
        Ok(later) => Ok(Invocation::Verify(file, later)),
        Err(fault) => Err(fault),
    }
}
