//! Checks before a command is run. They change nothing.

ghost use Rattle.std.specs.Prelude.{◌≡◌};
ghost use Rattle.mg_words.specs.declared.error_number.ErrorNumber.TheVariants.{NotServed};
ghost use Rattle.mg_rooms.specs.Results.{passes};
ghost use Rattle.mg_engine.specs.Gateway.{Gateway};
ghost use Rattle.mg_engine.specs.aids.Stands.{StandsFor};
ghost use Rattle.mg_commands.specs.Outcome.{check_command, check_new_name, number_in};
ghost use Rattle.mg_commands.specs.aids.Steps.{is_served, check_descriptors};

use crate::command_parameters::CommandParameters;
use crate::descriptors::read_descriptors;
use crate::findings::Findings;
use crate::name::Name;
use crate::support::is_served_word;
use mg_engine::Engine;
use mg_text::{Command, Descriptor, ErrorNumber};

/// Returns whether a command is supported. The prefix `W-`, which requests one reply for all matching terminations, is
/// not supported.
fn is_served(command: &Command) -> bool
    ensures value { result ≡ is_served command.now }
{
    is_served_word(command.word) && !command.wants_wildcard
}

fn if_served(is_served: bool) -> Result<(), ErrorNumber>
    ensures value { result ≡ passes is_served NotServed }
{
    if is_served {
        Ok(())
    } else {
        Err(ErrorNumber::NotServed)
    }
}

/// Returns the parameters that the descriptors request, or the error in them. A faulty descriptor outranks a fault in a
/// stream's number or in a LocalControl.
fn check_descriptors(
    source: &[u8],
    descriptors: &[Descriptor],
) -> Result<CommandParameters, ErrorNumber>
    ensures value { result ≡ check_descriptors source.now descriptors.now }
{
    let mut found = Findings::nothing();
    match read_descriptors(source, descriptors, &mut found).or(found.fault) {
        Some(fault) => Err(fault),
        None => Ok(found.parameters),
    }
}

/// Returns the parameters that a command requests, or the error in its text.
#[tactic(auto, using(crate::proofs::CheckLemmas::by_descriptors))]
pub fn check_command(source: &[u8], command: &Command) -> Result<CommandParameters, ErrorNumber>
    ensures value { result ≡ check_command source.now command.now }
{
    if_served(is_served(command))?;
    check_descriptors(source, command.descriptors.as_slice())
}

/// Checks that an Add requests a new termination instead of naming one.
pub fn check_new_name(engine: &Engine, name: Name) -> Result<(), ErrorNumber>
    ensures value { (w : Gateway) → StandsFor engine.now w → result ≡ check_new_name w name }
{
    match name {
        Name::Choose => Ok(()),
        Name::Root | Name::All => Err(ErrorNumber::IdentifierNotAllowed),
        Name::Number(number) => match engine.rooms().record(number) {
            Some(_) => Err(ErrorNumber::AlreadyInContext),
            None => Err(ErrorNumber::UnknownTermination),
        },
        Name::Other => Err(ErrorNumber::UnknownTermination),
    }
}

/// Returns the number of the termination that a command names, or the error if the name denotes anything else.
pub fn number_in(name: Name) -> Result<u32, ErrorNumber>
    ensures value { result ≡ number_in name }
{
    match name {
        Name::Choose | Name::Root | Name::All => Err(ErrorNumber::IdentifierNotAllowed),
        Name::Number(number) => Ok(number),
        Name::Other => Err(ErrorNumber::UnknownTermination),
    }
}
