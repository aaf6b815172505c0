//! Commands on one termination, and the results that a reply reports.

ghost use Rattle.std.specs.Prelude.{◌≡◌, OnErr, if◌then◌else◌};
ghost use Rattle.mg_words.specs.declared.command_word.CommandWord.TheVariants.{Add, Modify, Move, Subtract};
ghost use Rattle.mg_engine.specs.Gateway.{Gateway};
ghost use Rattle.mg_engine.specs.aids.Stands.{StandsFor, IsOutcome};
ghost use Rattle.mg_engine.specs.Work.{RisesAtMost};
ghost use Rattle.mg_engine.specs.aids.Found.{HasStats};
ghost use Rattle.mg_commands.specs.Outcome.{served_at, entered_at, audit_root, audit_outcome, outcome};
ghost use Rattle.mg_commands.specs.aids.Steps.{audit_termination};
ghost use Rattle.mg_commands.specs.Work.{is_edit};

use crate::checks::{check_new_name, number_in};
use crate::command_parameters::CommandParameters;
use crate::name::Name;
use crate::reply_descriptors::ReplyDescriptors;
use crate::reply_parts::reply_parts;
use crate::served::Served;
use mg_engine::{Engine, Record, Target};
use mg_reply::Parts;
use mg_text::{CommandWord, ErrorNumber, Term};

/// Returns the result of a command on a termination. The record is the termination's record after the command or, for a
/// Subtract, before it.
fn served_at(
    engine: &Engine,
    target: Target,
    termination: &Record,
    descriptors: ReplyDescriptors,
) -> Served
    ensures value { (w : Gateway) → HasStats engine.now w termination.now →
        result ≡ served_at w target termination.now descriptors }
{
    Served {
        target,
        made: None,
        term: Term::rtp(termination.number),
        parts: reply_parts(engine, termination, descriptors),
    }
}

/// Returns the result of a command that put the termination into a context.
fn entered_at(engine: &Engine, termination: &Record, descriptors: ReplyDescriptors) -> Served
    ensures value { (w : Gateway) → HasStats engine.now w termination.now →
        result ≡ entered_at w termination.now descriptors }
{
    served_at(
        engine,
        Target::Number(termination.context),
        termination,
        descriptors,
    )
}

/// Runs an Add (RFC 3525, section 7.2.1).
#[tactic(auto, unfolding(crate::specs::Outcome::outcome))]
fn add_outcome(
    engine: &mut Engine,
    target: Target,
    name: Name,
    parameters: &CommandParameters,
) -> Result<Served, ErrorNumber>
    ensures represents { (w : Gateway) → StandsFor engine.old w →
        IsOutcome engine.new result (outcome Add w target name parameters.now) }
    ensures refused { OnErr result (engine.new ≡ engine.old) }
    ensures work { RisesAtMost 4 engine.old.sums.work engine.new.sums.work }
{
    check_new_name(engine, name)?;
    let added = engine.add(target, &parameters.settings)?;
    Ok(Served {
        made: Some(added.number),
        ..entered_at(engine, &added, ReplyDescriptors::after(parameters))
    })
}

/// Runs a Modify (RFC 3525, section 7.2.2).
#[tactic(auto, unfolding(crate::specs::Outcome::outcome))]
fn modify_outcome(
    engine: &mut Engine,
    target: Target,
    name: Name,
    parameters: &CommandParameters,
) -> Result<Served, ErrorNumber>
    ensures represents { (w : Gateway) → StandsFor engine.old w →
        IsOutcome engine.new result (outcome Modify w target name parameters.now) }
    ensures refused { OnErr result (engine.new ≡ engine.old) }
    ensures work { RisesAtMost 4 engine.old.sums.work engine.new.sums.work }
{
    let changed = engine.modify(target, number_in(name)?, &parameters.settings)?;
    Ok(served_at(
        engine,
        target,
        &changed,
        ReplyDescriptors::after(parameters),
    ))
}

/// Runs a Move (RFC 3525, section 7.2.4).
#[tactic(auto, unfolding(crate::specs::Outcome::outcome))]
fn move_outcome(
    engine: &mut Engine,
    target: Target,
    name: Name,
    parameters: &CommandParameters,
) -> Result<Served, ErrorNumber>
    ensures represents { (w : Gateway) → StandsFor engine.old w →
        IsOutcome engine.new result (outcome Move w target name parameters.now) }
    ensures refused { OnErr result (engine.new ≡ engine.old) }
    ensures work { RisesAtMost 4 engine.old.sums.work engine.new.sums.work }
{
    let moved = engine.move_to(target, number_in(name)?, &parameters.settings)?;
    Ok(entered_at(engine, &moved, ReplyDescriptors::after(parameters)))
}

/// Runs a Subtract (RFC 3525, section 7.2.3). Reports the state as it was before the command.
#[tactic(auto, unfolding(crate::specs::Outcome::outcome))]
fn subtract_outcome(
    engine: &mut Engine,
    target: Target,
    name: Name,
    parameters: &CommandParameters,
) -> Result<Served, ErrorNumber>
    ensures represents { (w : Gateway) → StandsFor engine.old w →
        IsOutcome engine.new result (outcome Subtract w target name parameters.now) }
    ensures refused { OnErr result (engine.new ≡ engine.old) }
    ensures work { RisesAtMost 4 engine.old.sums.work engine.new.sums.work }
{
    let gone = engine.subtract(target, number_in(name)?)?;
    Ok(served_at(engine, target, &gone, ReplyDescriptors::before(parameters)))
}

/// Runs an AuditValue on a termination (RFC 3525, section 7.2.5).
fn audit_termination(
    engine: &Engine,
    target: Target,
    name: Name,
    parameters: &CommandParameters,
) -> Result<Served, ErrorNumber>
    ensures value { (w : Gateway) → StandsFor engine.now w → result ≡ audit_termination w target name parameters.now }
{
    let found = engine.find(target, number_in(name)?)?;
    Ok(served_at(
        engine,
        target,
        &found,
        ReplyDescriptors::by_audit(parameters),
    ))
}

/// Runs an AuditValue on the gateway as a whole, which is allowed only in the null context. Reports only that the
/// gateway exists.
fn audit_root(target: Target) -> Result<Served, ErrorNumber>
    ensures value { result ≡ audit_root target }
{
    match target {
        Target::Null => Ok(Served {
            target,
            made: None,
            term: Term::root(),
            parts: Parts {
                media: None,
                statistics: None,
            },
        }),
        Target::New | Target::Number(_) => Err(ErrorNumber::IdentifierNotAllowed),
    }
}

/// Runs an AuditValue.
fn audit_outcome(
    engine: &Engine,
    target: Target,
    name: Name,
    parameters: &CommandParameters,
) -> Result<Served, ErrorNumber>
    ensures value { (w : Gateway) → StandsFor engine.now w → result ≡ audit_outcome w target name parameters.now }
{
    match name {
        Name::Root => audit_root(target),
        Name::Choose | Name::All | Name::Number(_) | Name::Other => {
            audit_termination(engine, target, name, parameters)
        }
    }
}

/// Runs a command for one name. The command's text has already been checked. A refused command changes nothing.
#[tactic(auto, unfolding(crate::specs::Outcome::outcome))]
pub fn outcome(
    engine: &mut Engine,
    word: CommandWord,
    target: Target,
    name: Name,
    parameters: &CommandParameters,
) -> Result<Served, ErrorNumber>
    ensures represents { (w : Gateway) → StandsFor engine.old w →
        IsOutcome engine.new result (outcome word w target name parameters.now) }
    ensures refused { OnErr result (engine.new ≡ engine.old) }
    ensures work { RisesAtMost (if is_edit word then 4 else 0) engine.old.sums.work engine.new.sums.work }
{
    match word {
        CommandWord::Add => add_outcome(engine, target, name, parameters),
        CommandWord::Modify => modify_outcome(engine, target, name, parameters),
        CommandWord::Move => move_outcome(engine, target, name, parameters),
        CommandWord::Subtract => subtract_outcome(engine, target, name, parameters),
        CommandWord::AuditValue => audit_outcome(engine, target, name, parameters),
        CommandWord::AuditCapability | CommandWord::Notify | CommandWord::ServiceChange => {
            Err(ErrorNumber::NotServed)
        }
    }
}
