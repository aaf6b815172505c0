//! Makes the state of a gateway from what the lines of a checkpoint say.

ghost use Rattle.std.specs.Prelude.{◌≡◌, IfOk, OnOk};
ghost use Rattle.mg_engine.specs.Config.{IsValidConfig};
ghost use Rattle.mg_engine.specs.aids.Quiet.{IsQuiet};
ghost use Rattle.mg_core.specs.World.{counts_of, no_events};
ghost use Rattle.mg_checkpoint.specs.aids.Rebuilt.{IsRebuilt, KeepsQuiet};

use crate::context_line::ContextLine;
use crate::draft::Draft;
use crate::fault::RestoreFault;
use crate::lines_reading::read_lines;
use crate::listener_line::ListenerLine;
use crate::reply_line::ReplyLine;
use crate::termination_line::TerminationLine;
use mg_core::{CoreState, Counts};
use mg_engine::theorems::quiet_engines_represent;
use mg_engine::{Config, Engine};
use mg_kept::Kept;
use mg_words::REPLY_LIMIT;
use std::alloc::Global;

/// Returns the line of a termination, or `None` if there is none.
fn line_of(terminations: &[TerminationLine], number: u32) -> Option<TerminationLine> {
    for line in terminations {
        if line.record.number == number {
            return Some(*line);
        }
    }
    None
}

/// Puts the members of a context back, in order of entry.
fn put_members(
    context: &ContextLine,
    terminations: &[TerminationLine],
    engine: &mut Engine,
) -> Result<(), RestoreFault>
    ensures quiet { KeepsQuiet engine.old engine.new }
{
    for member in context.members.as_slice() {
        let Some(line) = line_of(terminations, *member) else {
            return Err(RestoreFault::Refused(context.at));
        };
        let is_here = line.record.context == context.number;
        if !is_here || !engine.restore(&line.record, context.room, line.sent) {
            return Err(RestoreFault::Refused(context.at));
        }
    }
    Ok(())
}

/// Puts all members of all contexts back.
fn put_contexts(draft: &Draft, engine: &mut Engine) -> Result<(), RestoreFault>
    ensures quiet { KeepsQuiet engine.old engine.new }
{
    for context in &draft.contexts {
        put_members(context, draft.terminations.as_slice(), engine)?;
    }
    Ok(())
}

/// Mutes talkers for a listener.
fn mute(line: &ListenerLine, engine: &mut Engine) -> Result<(), RestoreFault>
    ensures quiet { KeepsQuiet engine.old engine.new }
{
    for talker in line.muted.as_slice() {
        if !engine.set_word(*talker, line.listener, false) {
            return Err(RestoreFault::Refused(line.at));
        }
    }
    Ok(())
}

/// Mutes talkers for all listeners.
fn mute_all(listeners: &[ListenerLine], engine: &mut Engine) -> Result<(), RestoreFault>
    ensures quiet { KeepsQuiet engine.old engine.new }
{
    for line in listeners {
        mute(line, engine)?;
    }
    Ok(())
}

/// The number of the line with the next numbers.
const NEXT_LINE: u64 = 2;

/// Puts terminations, contexts and topology back.
fn put_back(draft: &Draft, engine: &mut Engine) -> Result<(), RestoreFault>
    ensures quiet { KeepsQuiet engine.old engine.new }
{
    if !engine.skip_to(draft.next_termination, draft.next_context) {
        return Err(RestoreFault::Refused(NEXT_LINE));
    }
    put_contexts(draft, engine)?;
    mute_all(draft.listeners.as_slice(), engine)
}

/// Keeps a reply, unless its request has one already or it is too long.
fn keep(reply: &ReplyLine, kept: &mut Kept) -> bool {
    let sender = reply.sender.as_slice();
    let is_new = kept.find(sender, reply.number).is_none();
    if !is_new || reply.text.len() > REPLY_LIMIT {
        return false;
    }
    kept.keep(sender, reply.number, reply.text.as_slice());
    true
}

/// Keeps the replies, oldest first.
fn keep_replies(replies: &[ReplyLine], kept: &mut Kept) -> Result<(), RestoreFault> {
    for reply in replies {
        if !keep(reply, kept) {
            return Err(RestoreFault::Refused(reply.at));
        }
    }
    Ok(())
}

/// Returns the engine that the lines describe.
fn engine_of(alloc: Global, config: Config, draft: &Draft) -> Result<Engine, RestoreFault>
    ensures sound { OnOk result (IsValidConfig config) }
    ensures config { IfOk result (λ engine. engine.config ≡ config) }
    ensures quiet { IfOk result IsQuiet }
{
    quiet_engines_represent();
    let mut engine = Engine::new(alloc, config)?;
    put_back(draft, &mut engine)?;
    Ok(engine)
}

/// Returns the counts of a gateway that has had this many control datagrams and ticks and nothing else.
fn counts_of(control: u64, ticks: u64) -> Counts
    ensures value { result ≡ counts_of (record no_events { control = control; ticks = ticks }) }
{
    let mut counts = Counts::new();
    counts.control = control;
    counts.ticks = ticks;
    counts
}

/// Returns the state of the gateway that a text describes. The text may differ from the checkpoint of that gateway.
pub fn rebuild(alloc: Global, config: Config, text: &[u8]) -> Result<CoreState, RestoreFault>
    ensures rebuilt { IfOk result (IsRebuilt config) }
{
    let draft = read_lines(alloc, text)?;
    let engine = engine_of(alloc, config, &draft)?;
    let mut kept = Kept::new(alloc)?;
    keep_replies(draft.replies.as_slice(), &mut kept)?;
    let counts = counts_of(draft.control, draft.ticks);
    Ok(CoreState {
        engine,
        kept,
        counts,
    })
}
