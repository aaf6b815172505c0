ghost use Rattle.std.specs.Prelude.{◌≡◌, ◌⊎◌, ◌||◌, ◌<◌, ◌*◌, length, map, true, false, None};
ghost use Rattle.std.specs.List.{list_all};
ghost use Rattle.mg_words.specs.Leads.{Leads};
ghost use Rattle.mg_reply.specs.Reply.{new_reply, after_put, after_all, is_refusal, last_is_action};
ghost use Rattle.mg_reply.specs.aids.Whole.{IsWhole};
ghost use Rattle.mg_reply.specs.aids.Width.{is_wide};
ghost use Rattle.mg_engine.specs.Gateway.{Gateway};
ghost use Rattle.mg_engine.specs.aids.Stands.{StandsFor};
ghost use Rattle.mg_engine.specs.Work.{RisesAtMost};
ghost use Rattle.mg_scan.specs.Span.{text_of};
ghost use Rattle.mg_text.specs.Proper.{command_is_proper, action_is_proper, request_is_proper};
ghost use Rattle.mg_commands.specs.Name.{written_name};
ghost use Rattle.mg_commands.specs.Transaction.{target_of, id_of, replied};
ghost use Rattle.mg_commands.specs.Work.{edits_reported};
ghost use Rattle.mg_commands.specs.aids.ByActions.{with_name, with_names, with_command, with_commands, with_action, with_actions};
ghost use Rattle.mg_commands.specs.aids.Runs.{Base, IsActionRun, action_kept, with_all, IsTransaction, transaction_kept};

use crate::action_fault::action_fault;
use crate::checks::check_command;
use crate::command_parameters::CommandParameters;
use crate::context_properties::try_properties;
use crate::members::{all_members, copy_of};
use crate::name::{Name, name_of, written_as, written_name};
use crate::outcomes::outcome;
use crate::progress::Progress;
use mg_engine::{Engine, Target};
use mg_reply::{Item, Outcome, Reply};
use mg_text::{Action, Command, ContextId, ErrorNumber, Request};

/// Tries a command for one name. Returns the progress of the action, and whether the command succeeded.
fn try_name(
    engine: &mut Engine,
    source: &[u8],
    command: &Command,
    parameters: &CommandParameters,
    name: Name,
    progress: Progress,
    reply: &mut Reply,
) -> (Progress, bool)
    requires proper { command_is_proper source.now command.now ≡ true }
    ensures ran { (base : Base) → Leads (IsActionRun base) (action_kept engine.old progress reply.old)
        (action_kept engine.new result.0 reply.new)
        (λ run next. with_name source.now command.now parameters.now name run ≡ (next, result.1)) }
{
    match outcome(engine, command.word, progress.target, name, parameters) {
        Ok(served) => {
            let next = Progress {
                target: served.target,
                made: progress.made.or(served.made),
            };
            let done = Outcome::Done(served.parts);
            reply.put(Item::Command(command.word, served.term, done));
            (next, true)
        }
        Err(number) => {
            let term = written_as(command.term.text(source), name);
            reply.put(Item::Command(command.word, term, Outcome::Failed(number)));
            (progress, false)
        }
    }
}

/// Tries a command on several members, one after another. A failure for one member does not stop the others.
///
/// Returns the progress of the action, and whether the command succeeded for all members.
fn try_members(
    engine: &mut Engine,
    source: &[u8],
    command: &Command,
    parameters: &CommandParameters,
    members: &[u32],
    progress: Progress,
    reply: &mut Reply,
) -> (Progress, bool)
    requires proper { command_is_proper source.now command.now ≡ true }
    ensures ran { (base : Base) → Leads (IsActionRun base) (action_kept engine.old progress reply.old)
        (action_kept engine.new result.0 reply.new)
        (λ run next. with_names source.now command.now parameters.now (map Name.Number members.now) run ≡
        (next, result.1)) }
{
    let mut progress = progress;
    let mut were_done = true;
    for number in members {
        let name = Name::Number(*number);
        let (next, is_done) = try_name(engine, source, command, parameters, name, progress, reply);
        progress = next;
        were_done = were_done && is_done;
    }
    (progress, were_done)
}

/// Reports that a command cannot be tried at all.
fn put_refusal(source: &[u8], command: &Command, number: ErrorNumber, reply: &mut Reply)
    requires proper { command_is_proper source.now command.now ≡ true }
    ensures value { reply.new ≡ after_put reply.old
        (Item.Command command.now.word (written_name (text_of source.now command.now.term)) (Outcome.Failed number)) }
{
    let term = written_name(command.term.text(source));
    reply.put(Item::Command(command.word, term, Outcome::Failed(number)));
}

/// Tries a command for all members that the context has when the command starts, in order of entry.
fn try_all(
    engine: &mut Engine,
    source: &[u8],
    command: &Command,
    parameters: &CommandParameters,
    progress: Progress,
    reply: &mut Reply,
) -> (Progress, bool)
    requires proper { command_is_proper source.now command.now ≡ true }
    ensures ran { (base : Base) → Leads (IsActionRun base) (action_kept engine.old progress reply.old)
        (action_kept engine.new result.0 reply.new)
        (λ run next. with_all source.now command.now parameters.now run ≡ (next, result.1)) }
{
    match all_members(engine, progress.target, command.word) {
        Ok(members) => {
            let copy = copy_of(members);
            let members = &copy[..members.len()];
            try_members(
                engine, source, command, parameters, members, progress, reply,
            )
        }
        Err(number) => {
            put_refusal(source, command, number, reply);
            (progress, false)
        }
    }
}

/// Tries one command of an action: for the name that the command gives or, with `*`, for all members.
///
/// Returns the progress of the action, and whether the command succeeded.
fn try_command(
    engine: &mut Engine,
    source: &[u8],
    command: &Command,
    progress: Progress,
    reply: &mut Reply,
) -> (Progress, bool)
    requires proper { command_is_proper source.now command.now ≡ true }
    ensures ran { (base : Base) → Leads (IsActionRun base) (action_kept engine.old progress reply.old)
        (action_kept engine.new result.0 reply.new)
        (λ run next. with_command source.now command.now run ≡ (next, result.1)) }
{
    match check_command(source, command) {
        Ok(parameters) => match name_of(command.term.text(source)) {
            Name::All => try_all(engine, source, command, &parameters, progress, reply),
            name => try_name(engine, source, command, &parameters, name, progress, reply),
        },
        Err(number) => {
            put_refusal(source, command, number, reply);
            (progress, false)
        }
    }
}

/// Tries the commands of an action in order, and stops if a non-optional command fails.
///
/// Returns the progress of the action, and whether all non-optional commands succeeded.
#[tactic(auto, using(crate::proofs::RunLemmas::propers))]
fn try_commands(
    engine: &mut Engine,
    source: &[u8],
    commands: &[Command],
    progress: Progress,
    reply: &mut Reply,
) -> (Progress, bool)
    requires proper { list_all (command_is_proper source.now) commands.now ≡ true }
    ensures ran { (base : Base) → Leads (IsActionRun base) (action_kept engine.old progress reply.old)
        (action_kept engine.new result.0 reply.new)
        (λ run next. with_commands source.now commands.now run ≡ (next, result.1)) }
{
    let mut progress = progress;
    for command in commands {
        let (next, is_done) = try_command(engine, source, command, progress, reply);
        let continues = command.is_optional || is_done;
        if !continues {
            return (next, false);
        }
        progress = next;
    }
    (progress, true)
}

/// Returns the context that an action starts in.
fn target_of(context: ContextId) -> Target
    ensures value { result ≡ target_of context }
{
    match context {
        ContextId::Null | ContextId::All => Target::Null,
        ContextId::Choose => Target::New,
        ContextId::Number(number) => Target::Number(number),
    }
}

/// Returns the context that the reply names.
fn id_of(target: Target) -> ContextId
    ensures value { result ≡ id_of target }
{
    match target {
        Target::Null => ContextId::Null,
        Target::New => ContextId::Choose,
        Target::Number(number) => ContextId::Number(number),
    }
}

/// Tries an action, unless it is rejected as a whole: its commands and then, unless a non-optional command failed, its
/// properties.
///
/// Returns whether the action was completed.
#[tactic(auto, unfolding(crate::specs::aids::ByActions::with_action))]
fn try_action(engine: &mut Engine, source: &[u8], action: &Action, reply: &mut Reply) -> bool
    requires proper { action_is_proper source.now action.now ≡ true }
    ensures ran { (base : Base) → Leads (IsTransaction base) (transaction_kept engine.old reply.old)
        (transaction_kept engine.new reply.new) (λ s next. with_action source.now action.now s ≡ (next, result)) }
    ensures whole { IsWhole reply.new }
{
    if let Some(fault) = action_fault(action) {
        reply.put(Item::Fault(fault));
        reply.put(Item::Action(action.context));
        return false;
    }
    let commands = action.commands.as_slice();
    let properties = action.properties.as_slice();
    let start = Progress {
        target: target_of(action.context),
        made: None,
    };
    let (progress, were_done) = try_commands(engine, source, commands, start, reply);
    let is_done = were_done && try_properties(engine, source, properties, progress, reply);
    reply.put(Item::Action(id_of(progress.target)));
    is_done
}

/// Tries actions in order, and stops after the first that is not completed.
#[tactic(auto, using(crate::proofs::RunLemmas::propers))]
fn try_actions(engine: &mut Engine, source: &[u8], actions: &[Action], reply: &mut Reply)
    requires proper { list_all (action_is_proper source.now) actions.now ≡ true }
    ensures ran { (base : Base) → Leads (IsTransaction base) (transaction_kept engine.old reply.old)
        (transaction_kept engine.new reply.new) (λ s next. with_actions source.now actions.now s ≡ next) }
    ensures whole { IsWhole reply.old ⊎ (0 < length actions.now) → IsWhole reply.new }
{
    for action in actions {
        if !try_action(engine, source, action, reply) {
            return;
        }
    }
}

/// Empties the reply, runs a request from the message `source`, and puts the outcomes of its commands into the reply.
///
/// Commands are tried in order, up to the first non-optional command that fails. A command for all members (`*`) is
/// tried on every member, and fails if it fails for any member. If an optional command (`O-`) fails, the next commands
/// are still tried. Unless a command has ended the action, its triples are then applied, all or none, and its audit is
/// answered. An action that is rejected as a whole, or whose properties are refused after its commands, ends the
/// request even if its commands are optional.
pub fn transaction(engine: &mut Engine, source: &[u8], request: &Request, reply: &mut Reply)
    requires proper { request_is_proper source.now request.now ≡ true }
    ensures ran { Leads StandsFor engine.old engine.new (λ w next. ((replied source.now request.now w).gateway ≡ next)
        × (reply.new ≡ after_all (new_reply request.now.number) (replied source.now request.now w).items)) }
    ensures whole { IsWhole reply.new }

    // Each item has at least 10 bytes, including its comma, and the last item ends an action. So whether a reply is too
    // long depends only on the length of its text.
    ensures wide { (w : Gateway) → list_all is_wide (replied source.now request.now w).items ≡ true }
    ensures ended { (w : Gateway) → (is_refusal (replied source.now request.now w).items
        || last_is_action false (replied source.now request.now w).items) ≡ true }

    // The cost is at most four rows for each edit applied. Refused commands, audits and triples cost none.
    ensures work { (w : Gateway) → StandsFor engine.old w →
        RisesAtMost (4 * edits_reported (replied source.now request.now w).items) engine.old.sums.work
        engine.new.sums.work }
{
    reply.start(request.number);
    try_actions(engine, source, request.actions.as_slice(), reply);
}
