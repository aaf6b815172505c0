//! The lines of a checkpoint.

ghost use Rattle.std.specs.Prelude.{◌≡◌, ◌++◌, ◌<◌, IfOk, Some, length};
ghost use Rattle.mg_rooms.specs.Registry.{context_at};
ghost use Rattle.mg_rooms.specs.declared.context.Context.{Context};
ghost use Rattle.mg_kept.specs.KeptReplies.{KeptReply};
ghost use Rattle.std.specs.List.{slice_get};
ghost use Rattle.mg_checkpoint.specs.aids.Text.{opening_lines, closing_line, context_line, place_text, stream_text, descriptors_text, record_text, sent_text, listener_line, muted_line, reply_line};

use crate::parts_writing::{
    put, put_closing, put_media, put_mode, put_names, put_numbered, put_rest_of_line, put_word,
};
use mg_engine::{Record, Rooms, SentMedia};
use mg_kept::Kept;
use std::alloc::AllocError;

/// Writes the first two lines: the counts of control datagrams and ticks, and the next numbers.
#[tactic(auto, using(crate::proofs::WritingLemmas::steps))]
pub fn put_opening(
    control: u64,
    ticks: u64,
    termination: u64,
    context: u64,
    out: &mut Vec<u8>,
) -> Result<(), AllocError>
    ensures value { IfOk result (λ _. out.new.items ≡ out.old.items ++ opening_lines control ticks termination context) }
{
    put_numbered(b"checkpoint after ", control, out)?;
    put_numbered(b"control datagrams and ", ticks, out)?;
    put(b"ticks\n", out)?;
    put_numbered(b"next RTP/", termination, out)?;
    put_closing(b"context ", context, out)
}

/// Writes the last line.
pub fn put_closing_line(lines: u64, out: &mut Vec<u8>) -> Result<(), AllocError>
    ensures value { IfOk result (λ _. out.new.items ≡ out.old.items ++ closing_line lines) }
{
    put_numbered(b"end after ", lines, out)?;
    put(b"lines\n", out)
}

/// Writes the line of a context, or nothing if the context doesn't exist.
#[tactic(auto, using(crate::proofs::WritingLemmas::steps))]
pub fn put_context(rooms: &Rooms, number: u32, out: &mut Vec<u8>) -> Result<(), AllocError>
    ensures value { IfOk result (λ _. (x : Context) → context_at rooms.now number ≡ Some x → x.number ≡ number →
        out.new.items ≡ out.old.items ++ context_line x) }
{
    let Some(room) = rooms.room(number) else {
        return Ok(());
    };
    put_numbered(b"context ", u64::from(number), out)?;
    put(b"has ", out)?;
    put_names(rooms.members(number), out)?;
    put_closing(b"in room ", u64::from(room), out)
}

/// Writes where a termination is: its context, its slot and its seat.
fn put_place(record: &Record, out: &mut Vec<u8>) -> Result<(), AllocError>
    ensures value { IfOk result (λ _. out.new.items ≡ out.old.items ++ place_text record.now) }
{
    put_numbered(b"termination RTP/", u64::from(record.number), out)?;
    put_numbered(b"context ", u64::from(record.context), out)?;
    put_numbered(b"slot ", u64::from(record.slot), out)?;
    put_numbered(b"seat ", u64::from(record.seat), out)
}

/// Writes the mode of a termination's stream, and the depth of its play list.
fn put_stream(record: &Record, out: &mut Vec<u8>) -> Result<(), AllocError>
    ensures value { IfOk result (λ _. out.new.items ≡ out.old.items ++ stream_text record.now) }
{
    put(b"mode ", out)?;
    put_mode(record.mode, out)?;
    put(b" ", out)?;
    put_numbered(b"depth ", u64::from(record.depth), out)
}

/// Writes the Local and the Remote of a termination.
fn put_descriptors(record: &Record, out: &mut Vec<u8>) -> Result<(), AllocError>
    ensures value { IfOk result (λ _. out.new.items ≡ out.old.items ++ descriptors_text record.now) }
{
    put(b"local ", out)?;
    put_media(record.local, out)?;
    put(b"remote ", out)?;
    put_media(record.remote, out)
}

/// Writes the record of a termination, the first part of its line.
#[tactic(auto, using(crate::proofs::WritingLemmas::steps))]
pub fn put_record(record: &Record, out: &mut Vec<u8>) -> Result<(), AllocError>
    ensures value { IfOk result (λ _. out.new.items ≡ out.old.items ++ record_text record.now) }
{
    put_place(record, out)?;
    put_stream(record, out)?;
    put_descriptors(record, out)
}

/// Writes what a termination has sent, the second part of its line.
#[tactic(auto, using(crate::proofs::WritingLemmas::steps))]
pub fn put_sent(sent: SentMedia, out: &mut Vec<u8>) -> Result<(), AllocError>
    ensures value { IfOk result (λ _. out.new.items ≡ out.old.items ++ sent_text sent) }
{
    put_numbered(b"timestamp ", u64::from(sent.timestamp), out)?;
    put_numbered(b"sequence ", u64::from(sent.sequence), out)?;
    put_numbered(b"sent ", sent.sent, out)?;
    put_numbered(b"octets ", sent.octets, out)?;
    if sent.is_sending {
        put(b"sending\n", out)
    } else {
        put(b"paused\n", out)
    }
}

/// Writes the line of the talkers that a listener may not hear.
#[tactic(auto, using(crate::proofs::WritingLemmas::steps))]
fn put_listener(listener: u32, muted: &[u32], out: &mut Vec<u8>) -> Result<(), AllocError>
    ensures value { IfOk result (λ _. out.new.items ≡ out.old.items ++ listener_line listener muted.now) }
{
    put_numbered(b"listener RTP/", u64::from(listener), out)?;
    put(b"has ", out)?;
    put_names(muted, out)?;
    put(b"muted\n", out)
}

/// Writes the line of the talkers that a listener may not hear, if there are any.
#[tactic(auto, using(crate::proofs::WritingLemmas::muted))]
pub fn put_muted(listener: u32, muted: &[u32], out: &mut Vec<u8>) -> Result<(), AllocError>
    ensures value { IfOk result (λ _. out.new.items ≡ out.old.items ++ muted_line listener muted.now) }
{
    if muted.is_empty() {
        return Ok(());
    }
    put_listener(listener, muted, out)
}

/// Writes the line of a kept reply.
#[tactic(auto, using(crate::proofs::WritingLemmas::steps))]
pub fn put_reply(kept: &Kept, place: usize, out: &mut Vec<u8>) -> Result<(), AllocError>
    requires there { place < length kept.now }
    ensures value { IfOk result (λ _. (reply : KeptReply) → slice_get kept.now place ≡ Some reply →
        out.new.items ≡ out.old.items ++ reply_line reply) }
{
    put_numbered(b"reply ", u64::from(kept.number(place)), out)?;
    put(b"to ", out)?;
    put_word(kept.sender(place), out)?;
    put_rest_of_line(kept.text(place), out)
}
