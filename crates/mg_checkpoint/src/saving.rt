ghost use Rattle.std.specs.Prelude.{◌≡◌, ◌<◌, ◌++◌, ◌==◌, ◌&&◌, not, IfOk, Some, count_by, flat_map, length};
ghost use Rattle.std.specs.List.{slice_get};
ghost use Rattle.mg_core.specs.World.{World};
ghost use Rattle.mg_core.specs.aids.Stands.{StandsFor};
ghost use Rattle.mg_engine.specs.Flow.{hears};
ghost use Rattle.mg_engine.specs.Gateway.{Gateway};
ghost use Rattle.mg_engine.specs.aids.Stands as engine_stands;
ghost use Rattle.mg_checkpoint.specs.Checkpoint.{checkpoint_text};
ghost use Rattle.mg_checkpoint.specs.Said.{SaidTermination, muted_for, said_of, said_terminations};
ghost use Rattle.mg_checkpoint.specs.aids.Text.{body_of, context_line, first_lines, last_line, reply_line, termination_lines};

use crate::lines_writing::{
    put_closing_line, put_context, put_muted, put_opening, put_record, put_reply, put_sent,
};
use arrayvec::ArrayVec;
use mg_core::{Core, CoreState};
use mg_engine::{Engine, Record};
use mg_kept::Kept;
use mg_rooms::MEMBER_LIMIT;
use std::alloc::AllocError;

/// Writes the first two lines: the counts of events and the next numbers.
fn put_first(state: &CoreState, out: &mut Vec<u8>) -> Result<(), AllocError>
    ensures value { IfOk result (λ _. (w : World) → StandsFor state.now w →
        out.new.items ≡ out.old.items ++ first_lines (said_of w)) }
{
    let counts = state.counts;
    let rooms = state.engine.rooms();
    let next = rooms.next_termination();
    put_opening(
        counts.control,
        counts.ticks,
        next,
        rooms.next_context(),
        out,
    )
}

/// Writes a line for each context.
fn put_contexts(engine: &Engine, out: &mut Vec<u8>) -> Result<(), AllocError>
    ensures value { IfOk result (λ _. (w : Gateway) → engine_stands.StandsFor engine.now w →
        out.new.items ≡ out.old.items ++ flat_map context_line w.rooms.contexts) }
{
    // The contract of this call says that the contexts are consistent.
    let _ = engine.terminations();
    let rooms = engine.rooms();
    let numbers = rooms.contexts();
    for number in numbers.as_slice() {
        put_context(rooms, *number, out)?;
    }
    Ok(())
}

/// Returns whether a talker is another member of a listener's context whom the listener may not hear. Both must be
/// members of one context.
fn is_muted(engine: &Engine, talker: u32, listener: u32) -> bool
    ensures value { (w : Gateway) → engine_stands.StandsFor engine.now w →
        result ≡ (not (talker == listener) && not (hears w talker listener)) }
{
    talker != listener && !engine.hears(talker, listener)
}

/// Returns the members of a listener's context that the listener may not hear.
fn muted_for(engine: &Engine, listener: &Record) -> ArrayVec<u32, MEMBER_LIMIT>
    ensures value { (w : Gateway) → engine_stands.StandsFor engine.now w → result.items ≡ muted_for w listener.now }
{
    let members = engine.rooms().members(listener.context);
    let mut muted = ArrayVec::new();
    for talker in members {
        if is_muted(engine, *talker, listener.number) {
            muted.push(*talker);
        }
    }
    muted
}

/// Writes the lines of the termination at an index.
fn put_termination(engine: &Engine, place: usize, out: &mut Vec<u8>) -> Result<(), AllocError>
    requires there { place < length engine.now.rooms.terminations }
    ensures value { IfOk result (λ _. (w : Gateway) → engine_stands.StandsFor engine.now w →
        (t : SaidTermination) × (slice_get (said_terminations w) place ≡ Some t)
        × (out.new.items ≡ out.old.items ++ termination_lines t)) }
{
    let record = engine.termination(place);
    put_record(&record, out)?;
    put_sent(engine.sent_media(place), out)?;
    let muted = muted_for(engine, &record);
    put_muted(record.number, muted.as_slice(), out)
}

/// Writes the lines of all terminations, in order of number.
fn put_terminations(engine: &Engine, out: &mut Vec<u8>) -> Result<(), AllocError>
    ensures value { IfOk result (λ _. (w : Gateway) → engine_stands.StandsFor engine.now w →
        out.new.items ≡ out.old.items ++ flat_map termination_lines (said_terminations w)) }
{
    for place in 0..engine.terminations() {
        put_termination(engine, place, out)?;
    }
    Ok(())
}

/// Writes a line for each kept reply, oldest first.
fn put_replies(kept: &Kept, out: &mut Vec<u8>) -> Result<(), AllocError>
    ensures value { IfOk result (λ _. out.new.items ≡ out.old.items ++ flat_map reply_line kept.now) }
{
    for place in 0..kept.len() {
        put_reply(kept, place, out)?;
    }
    Ok(())
}

/// Writes all lines but the last.
fn put_body(state: &CoreState, out: &mut Vec<u8>) -> Result<(), AllocError>
    ensures value { IfOk result (λ _. (w : World) → StandsFor state.now w →
        out.new.items ≡ out.old.items ++ body_of (said_of w)) }
{
    put_first(state, out)?;
    put_contexts(&state.engine, out)?;
    put_terminations(&state.engine, out)?;
    put_replies(&state.kept, out)
}

/// Returns the number of line feeds.
pub fn feeds_in(text: &[u8]) -> u64
    ensures value { result ≡ count_by (λ b. b == 10) text.now }
{
    let mut feeds = 0;
    for b in text {
        if *b == b'\n' {
            feeds += 1;
        }
    }
    feeds
}

/// Appends the checkpoint of a gateway to a text.
///
/// Fails only if memory runs out. The text then ends with a part of the checkpoint.
pub fn save(core: &Core, out: &mut Vec<u8>) -> Result<(), AllocError>
    ensures written { IfOk result (λ _. (w : World) → StandsFor core.now.state w →
        out.new.items ≡ out.old.items ++ checkpoint_text w) }
{
    let before = feeds_in(out.as_slice());
    put_body(core.state(), out)?;
    let lines = feeds_in(out.as_slice()).saturating_sub(before);
    put_closing_line(lines, out)
}
