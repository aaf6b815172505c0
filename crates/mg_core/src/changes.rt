//! The comment lines that report changes to terminations and to who hears whom.

ghost use Rattle.std.specs.Prelude.{◌≡◌, ◌≤◌, ◌+◌, ◌*◌, ◌++◌, length, codes, decimal, flat_map, MatchOption, None, Some};
ghost use Rattle.mg_bytes.specs.Bytes.{appended};
ghost use Rattle.mg_core.specs.Flows.{changes, ended_line, hearing, in_mode, is_same_mode, line_head, listener_at, made_line, moved_line, name_in_line, names_in_line, lines_of_new, lines_of_old};

use crate::listener::KeptListener;
use itoa::Buffer;
use mg_bytes::Bytes;
use mg_words::{MEMBER_LIMIT, Mode};

/// The maximum length, in bytes, of a number in decimal.
const NUMBER_LIMIT: usize = 20;

/// The maximum length, in bytes, of the start of a line: `# `, ` ticks: RTP/` and two numbers.
const LINE_HEAD_LIMIT: usize = 14 + 2 * NUMBER_LIMIT;

/// The maximum length, in bytes, of the line for a termination that ended: its start, ` ended` and a line feed.
pub const ENDED_LIMIT: usize = 7 + LINE_HEAD_LIMIT;

/// The maximum length, in bytes, of a new termination's place: ` made in context `, ` at port ` and two numbers.
const PLACE_LIMIT: usize = 26 + 2 * NUMBER_LIMIT;

/// The maximum length, in bytes, of the line with a new termination's place: its start, the place and a line feed.
const MADE_LIMIT: usize = 1 + LINE_HEAD_LIMIT + PLACE_LIMIT;

/// The maximum length, in bytes, of ` moved to context ` and a number.
const MOVED_TO_LIMIT: usize = 18 + NUMBER_LIMIT;

/// The maximum length, in bytes, of the line for a termination that moved: its start, the context and a line feed.
const MOVED_LIMIT: usize = 1 + LINE_HEAD_LIMIT + MOVED_TO_LIMIT;

/// The maximum length, in bytes, of the line with a termination's mode: its start, ` mode `, the longest mode (11
/// bytes) and a line feed.
const MODE_LINE_LIMIT: usize = 18 + LINE_HEAD_LIMIT;

/// The maximum length, in bytes, of a space and a name: ` RTP/` and a number.
const TALKER_LIMIT: usize = 5 + NUMBER_LIMIT;

/// The maximum length, in bytes, of the names of all members of a context.
const TALKERS_LIMIT: usize = MEMBER_LIMIT * TALKER_LIMIT;

/// The maximum length, in bytes, of the line that reports whom a termination hears: its start, ` hears`, names and a
/// line feed.
const HEARING_LIMIT: usize = 7 + LINE_HEAD_LIMIT + TALKERS_LIMIT;

/// The maximum length, in bytes, of all lines for a new termination.
pub const NEW_LIMIT: usize = MADE_LIMIT + MODE_LINE_LIMIT + HEARING_LIMIT;

/// Writes a number in decimal.
#[tactic(auto, using(crate::proofs::ChangeLemmas::lengths))]
fn push_number(n: u64, out: &mut Bytes)
    requires room { NUMBER_LIMIT ≤ out.old.room }
    ensures value { out.new ≡ appended out.old (decimal n) }
    ensures short { length (decimal n) ≤ NUMBER_LIMIT }
{
    let mut buffer = Buffer::new();
    out.push(buffer.format(n).as_bytes());
}

/// Writes the start of a line: the number of ticks so far, and the termination.
#[tactic(auto, using(crate::proofs::ChangeLemmas::steps))]
fn push_head(ticks: u64, number: u32, out: &mut Bytes)
    requires room { LINE_HEAD_LIMIT ≤ out.old.room }
    ensures value { out.new ≡ appended out.old (line_head ticks number) }
    ensures short { length (line_head ticks number) ≤ LINE_HEAD_LIMIT }
{
    out.push(b"# ");
    push_number(ticks, out);
    out.push(b" ticks: RTP/");
    push_number(u64::from(number), out);
}

/// Writes that a termination ended.
#[tactic(auto, using(crate::proofs::ChangeLemmas::steps))]
fn push_ended(ticks: u64, old: &KeptListener, out: &mut Bytes)
    requires room { ENDED_LIMIT ≤ out.old.room }
    ensures value { out.new ≡ appended out.old (ended_line ticks old.now) }
    ensures short { length (ended_line ticks old.now) ≤ ENDED_LIMIT }
{
    push_head(ticks, old.number, out);
    out.push(b" ended\n");
}

/// Writes the context and the port of a new termination.
#[tactic(auto, using(crate::proofs::ChangeLemmas::steps))]
fn push_place(context: u32, port: u16, out: &mut Bytes)
    requires room { PLACE_LIMIT ≤ out.old.room }
    ensures value { out.new ≡ appended out.old
        (codes " made in context " ++ (decimal context ++ (codes " at port " ++ decimal port))) }
    ensures short { length (codes " made in context " ++ (decimal context ++ (codes " at port " ++ decimal port)))
        ≤ PLACE_LIMIT }
{
    out.push(b" made in context ");
    push_number(u64::from(context), out);
    out.push(b" at port ");
    push_number(u64::from(port), out);
}

/// Writes that a termination is new.
#[tactic(auto, using(crate::proofs::ChangeLemmas::steps))]
fn push_made(ticks: u64, new: &KeptListener, out: &mut Bytes)
    requires room { MADE_LIMIT ≤ out.old.room }
    ensures value { out.new ≡ appended out.old (made_line ticks new.now) }
    ensures short { length (made_line ticks new.now) ≤ MADE_LIMIT }
{
    push_head(ticks, new.number, out);
    push_place(new.context, new.port, out);
    out.push(b"\n");
}

/// Writes the context that a termination moved to.
#[tactic(auto, using(crate::proofs::ChangeLemmas::steps))]
fn push_context(context: u32, out: &mut Bytes)
    requires room { MOVED_TO_LIMIT ≤ out.old.room }
    ensures value { out.new ≡ appended out.old (codes " moved to context " ++ decimal context) }
    ensures short { length (codes " moved to context " ++ decimal context) ≤ MOVED_TO_LIMIT }
{
    out.push(b" moved to context ");
    push_number(u64::from(context), out);
}

/// Writes that a termination moved to another context.
#[tactic(auto, using(crate::proofs::ChangeLemmas::steps))]
fn push_moved(ticks: u64, new: &KeptListener, out: &mut Bytes)
    requires room { MOVED_LIMIT ≤ out.old.room }
    ensures value { out.new ≡ appended out.old (moved_line ticks new.now) }
    ensures short { length (moved_line ticks new.now) ≤ MOVED_LIMIT }
{
    push_head(ticks, new.number, out);
    push_context(new.context, out);
    out.push(b"\n");
}

/// Writes the mode of a termination.
#[tactic(auto, using(crate::proofs::ChangeLemmas::steps))]
fn push_mode(ticks: u64, new: &KeptListener, out: &mut Bytes)
    requires room { MODE_LINE_LIMIT ≤ out.old.room }
    ensures value { out.new ≡ appended out.old (in_mode ticks new.now) }
    ensures short { length (in_mode ticks new.now) ≤ MODE_LINE_LIMIT }
{
    push_head(ticks, new.number, out);
    out.push(b" mode ");
    out.push(new.mode.as_str().as_bytes());
    out.push(b"\n");
}

/// Writes a space and the name of a termination.
#[tactic(auto, using(crate::proofs::ChangeLemmas::steps))]
fn push_name(number: u32, out: &mut Bytes)
    requires room { TALKER_LIMIT ≤ out.old.room }
    ensures value { out.new ≡ appended out.old (name_in_line number) }
    ensures short { length (name_in_line number) ≤ TALKER_LIMIT }
{
    out.push(b" RTP/");
    push_number(u64::from(number), out);
}

/// Writes the names of terminations, or `nobody` if there are none.
#[tactic(auto, using(crate::proofs::ChangeLemmas::steps))]
fn push_names(numbers: &[u32], out: &mut Bytes)
    requires few { length numbers.now ≤ MEMBER_LIMIT }
    requires room { TALKERS_LIMIT ≤ out.old.room }
    ensures value { out.new ≡ appended out.old (names_in_line numbers.now) }
    ensures short { length (names_in_line numbers.now) ≤ TALKERS_LIMIT }
{
    if numbers.is_empty() {
        out.push(b" nobody");
        return;
    }
    for number in numbers {
        push_name(*number, out);
    }
}

/// Writes whom a termination hears.
#[tactic(auto, using(crate::proofs::ChangeLemmas::steps))]
fn push_talkers(ticks: u64, new: &KeptListener, out: &mut Bytes)
    requires room { HEARING_LIMIT ≤ out.old.room }
    ensures value { out.new ≡ appended out.old (hearing ticks new.now) }
    ensures short { length (hearing ticks new.now) ≤ HEARING_LIMIT }
{
    push_head(ticks, new.number, out);
    out.push(b" hears");
    push_names(new.talkers.as_slice(), out);
    out.push(b"\n");
}

/// Writes the place and the mode of a new termination and, unless it hears nobody, whom it hears.
#[tactic(auto, using(crate::proofs::ChangeLemmas::steps))]
fn push_new(ticks: u64, new: &KeptListener, out: &mut Bytes)
    requires room { NEW_LIMIT ≤ out.old.room }
    ensures value { out.new ≡ appended out.old (lines_of_new ticks None new.now) }
    ensures short { length (lines_of_new ticks None new.now) ≤ NEW_LIMIT }
{
    push_made(ticks, new, out);
    push_mode(ticks, new, out);
    if !new.talkers.is_empty() {
        push_talkers(ticks, new, out);
    }
}

/// Returns whether two modes are equal.
fn is_same_mode(a: Mode, b: Mode) -> bool
    ensures value { result ≡ is_same_mode a b }
{
    a == b
}

/// Writes the changes to an existing termination.
#[tactic(auto, using(crate::proofs::ChangeLemmas::steps))]
fn push_changed(ticks: u64, old: &KeptListener, new: &KeptListener, out: &mut Bytes)
    requires room { NEW_LIMIT ≤ out.old.room }
    ensures value { out.new ≡ appended out.old (lines_of_new ticks (Some old.now) new.now) }
    ensures short { length (lines_of_new ticks (Some old.now) new.now) ≤ NEW_LIMIT }
{
    if old.context != new.context {
        push_moved(ticks, new, out);
    }
    if !is_same_mode(old.mode, new.mode) {
        push_mode(ticks, new, out);
    }
    if old.talkers.as_slice() != new.talkers.as_slice() {
        push_talkers(ticks, new, out);
    }
}

/// Returns the listener with this number, or `None` if there is none.
fn listener_at(listeners: &[KeptListener], number: u32) -> Option<&KeptListener>
    ensures value { MatchOption result (listener_at listeners.now number ≡ None)
        (λ x. listener_at listeners.now number ≡ Some x.now) }
{
    for x in listeners {
        if x.number == number {
            return Some(x);
        }
    }
    None
}

/// Writes that a termination ended, unless it still exists.
#[tactic(auto, using(crate::proofs::ChangeLemmas::steps))]
fn push_old(ticks: u64, after: &[KeptListener], old: &KeptListener, out: &mut Bytes)
    requires room { ENDED_LIMIT ≤ out.old.room }
    ensures value { out.new ≡ appended out.old (lines_of_old ticks after.now old.now) }
    ensures short { length (lines_of_old ticks after.now old.now) ≤ ENDED_LIMIT }
{
    match listener_at(after, old.number) {
        Some(_) => {}
        None => push_ended(ticks, old, out),
    }
}

/// Writes the changes to a termination, or everything about it if it is new.
#[tactic(auto, using(crate::proofs::ChangeLemmas::steps))]
fn push_listener(ticks: u64, before: &[KeptListener], new: &KeptListener, out: &mut Bytes)
    requires room { NEW_LIMIT ≤ out.old.room }
    ensures value { out.new ≡ appended out.old (lines_of_new ticks (listener_at before.now new.now.number) new.now) }
    ensures short { length (lines_of_new ticks (listener_at before.now new.now.number) new.now) ≤ NEW_LIMIT }
{
    match listener_at(before, new.number) {
        Some(old) => push_changed(ticks, old, new, out),
        None => push_new(ticks, new, out),
    }
}

/// Writes which terminations ended.
#[tactic(auto, using(crate::proofs::ChangeLemmas::steps))]
fn push_all_old(ticks: u64, before: &[KeptListener], after: &[KeptListener], out: &mut Bytes)
    requires room { ENDED_LIMIT * length before.now ≤ out.old.room }
    ensures value { out.new ≡ appended out.old (flat_map (lines_of_old ticks after.now) before.now) }
    ensures short { length (flat_map (lines_of_old ticks after.now) before.now) ≤ ENDED_LIMIT * length before.now }
{
    for old in before {
        push_old(ticks, after, old, out);
    }
}

/// Writes the changes to each existing termination, and everything about each new one.
#[tactic(auto, using(crate::proofs::ChangeLemmas::steps))]
fn push_all_new(ticks: u64, before: &[KeptListener], after: &[KeptListener], out: &mut Bytes)
    requires room { NEW_LIMIT * length after.now ≤ out.old.room }
    ensures value { out.new ≡ appended out.old
        (flat_map (λ x. lines_of_new ticks (listener_at before.now x.number) x) after.now) }
    ensures short { length (flat_map (λ x. lines_of_new ticks (listener_at before.now x.number) x) after.now)
        ≤ NEW_LIMIT * length after.now }
{
    for new in after {
        push_listener(ticks, before, new, out);
    }
}

/// Writes all changes from the earlier to the later state of the terminations.
#[tactic(auto, using(crate::proofs::ChangeLemmas::steps))]
pub fn push_changes(ticks: u64, before: &[KeptListener], after: &[KeptListener], out: &mut Bytes)
    requires room { ENDED_LIMIT * length before.now + NEW_LIMIT * length after.now ≤ out.old.room }
    ensures value { out.new ≡ appended out.old (changes ticks before.now after.now) }
    ensures short { length (changes ticks before.now after.now) ≤ ENDED_LIMIT * length before.now + NEW_LIMIT * length after.now }
{
    push_all_old(ticks, before, after, out);
    push_all_new(ticks, before, after, out);
}
