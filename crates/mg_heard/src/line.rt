//! The lines for intervals and gaps, in each format.

ghost use Rattle.std.specs.Prelude.{◌≡◌, ◌≤◌, ◌+◌, ◌*◌, ◌++◌, codes, decimal, length, None, Some};
ghost use Rattle.mg_words.specs.Term.{rtp_name};
ghost use Rattle.mg_core.specs.Peer.{peer_text};
ghost use Rattle.mg_bytes.specs.Bytes.{appended};
ghost use Rattle.mg_heard.specs.Lines.{answer_line, end_text, extent_text, gap_word, head_of, line_of, moment_text};
ghost use Rattle.mg_heard.specs.Never.{violation_line};
ghost use Rattle.mg_heard.specs.aids.Shapes.{at_text, bar_end, bar_of, called_party, called_text, comma_text, date_of_end, extent_cells, extent_columns, extent_members, gap_shape, interval_object, interval_row, interval_shape, name_column, name_columns, name_member, name_members, peer_column, peer_member, sentence_of, shown_party, shown_text, table_row_shape, tick_column, tick_member, time_column, time_member, violation_sentence, violation_shape};
ghost use Rattle.mg_heard.specs.declared.format.Format.TheVariants.{Page};

use crate::claim::Claim;
use crate::entry::Entry;
use crate::escaping::{ESCAPE_LIMIT, push_escaped};
use crate::format::Format;
use crate::gap::Gap;
use crate::interval::Interval;
use crate::moment::Moment;
use crate::name::NAME_ROOM;
use crate::names::Names;
use crate::open_flow::OpenFlow;
use crate::style::Style;
use crate::violation::Violation;
use itoa::Buffer;
use mg_bytes::{Bytes, write_address, write_port};
use mg_core::Peer;
use mg_dates::Date;

/// The maximum length of a line, in bytes.
pub(crate) const LINE_LIMIT: usize = 1536;

/// The maximum length of a time, in bytes.
pub(crate) const TIME_LIMIT: usize = 64;

/// The maximum length, in bytes, of a number in decimal.
const NUMBER_LIMIT: usize = 20;

/// The maximum length, in bytes, of `RTP/` and a number.
const RTP_NAME_LIMIT: usize = 4 + NUMBER_LIMIT;

/// The maximum length of a peer, in bytes: an address, a colon and a port.
const PEER_LIMIT: usize = 21;

/// The maximum length, in bytes, of a termination in a sentence: a name, and a number and a peer in brackets.
const PARTY_LIMIT: usize = 5 + NAME_ROOM + RTP_NAME_LIMIT + PEER_LIMIT;

/// The maximum length, in bytes, of a termination on a page: a name with escapes, and a number and a peer in brackets.
const SHOWN_LIMIT: usize = 5 + ESCAPE_LIMIT * NAME_ROOM + RTP_NAME_LIMIT + PEER_LIMIT;

/// The maximum length, in bytes, of a moment: a time, and a tick in brackets.
const MOMENT_LIMIT: usize = 8 + TIME_LIMIT + NUMBER_LIMIT;

/// The maximum length, in bytes, of the end of a sentence: ` from `, ` until `, two moments and a line feed.
const EXTENT_LIMIT: usize = 14 + 2 * MOMENT_LIMIT;

/// The maximum length, in bytes, of the columns for a beginning and an end: two numbers, two times and commas.
const COLUMNS_LIMIT: usize = 3 + 2 * NUMBER_LIMIT + 2 * TIME_LIMIT;

/// The maximum length, in bytes, of the members for a beginning and an end: their names, two numbers and two times in
/// quotes.
const MEMBERS_LIMIT: usize = 47 + 2 * NUMBER_LIMIT + 2 * TIME_LIMIT;

/// The maximum length, in bytes, of the style of a table's row: two numbers and the text around them.
const BAR_LIMIT: usize = 18 + 2 * NUMBER_LIMIT;

/// The maximum length, in bytes, of the word for a gap: `fence ` and a number.
const GAP_LIMIT: usize = 6 + NUMBER_LIMIT;

/// The maximum length, in bytes, of the last cells of a table's row: two moments, and the text around them.
const CELLS_LIMIT: usize = 44 + 2 * MOMENT_LIMIT;

/// Writes a number in decimal.
#[tactic(auto, using(crate::proofs::LineLemmas::lengths))]
fn push_number(n: u64, out: &mut Bytes)
    requires room { NUMBER_LIMIT ≤ out.old.room }
    ensures value { out.new ≡ appended out.old (decimal n) }
    ensures short { length (decimal n) ≤ NUMBER_LIMIT }
{
    let mut buffer = Buffer::new();
    out.push(buffer.format(n).as_bytes());
}

/// Writes the number of a context in decimal.
#[tactic(auto, using(crate::proofs::LineLemmas::lengths))]
fn push_context(n: u32, out: &mut Bytes)
    requires room { NUMBER_LIMIT ≤ out.old.room }
    ensures value { out.new ≡ appended out.old (decimal n) }
    ensures short { length (decimal n) ≤ NUMBER_LIMIT }
{
    push_number(u64::from(n), out);
}

/// Writes the number of a termination, such as `RTP/7`.
#[tactic(auto, using(crate::proofs::LineLemmas::steps))]
pub(crate) fn push_name(number: u32, out: &mut Bytes)
    requires room { RTP_NAME_LIMIT ≤ out.old.room }
    ensures value { out.new ≡ appended out.old (rtp_name number) }
    ensures short { length (rtp_name number) ≤ RTP_NAME_LIMIT }
{
    out.push(b"RTP/");
    push_number(u64::from(number), out);
}

/// Writes a peer: an address, a colon and a port.
#[tactic(auto, using(crate::proofs::LineLemmas::steps))]
pub(crate) fn push_peer(peer: Peer, out: &mut Bytes)
    requires room { PEER_LIMIT ≤ out.old.room }
    ensures value { out.new ≡ appended out.old (peer_text peer) }
    ensures short { length (peer_text peer) ≤ PEER_LIMIT }
{
    write_address(peer.address, out);
    out.push(b":");
    write_port(peer.port, out);
}

// ## Sentences

/// Writes a space and a peer in brackets, or nothing if there is no peer.
#[tactic(auto, using(crate::proofs::LineLemmas::steps))]
fn push_at(at: Option<Peer>, out: &mut Bytes)
    requires room { 3 + PEER_LIMIT ≤ out.old.room }
    ensures value { out.new ≡ appended out.old (at_text at) }
    ensures short { length (at_text at) ≤ 3 + PEER_LIMIT }
{
    if let Some(peer) = at {
        out.push(b" (");
        push_peer(peer, out);
        out.push(b")");
    }
}

/// Writes a comma and a peer, or nothing if there is no peer.
#[tactic(auto, using(crate::proofs::LineLemmas::steps))]
fn push_comma(at: Option<Peer>, out: &mut Bytes)
    requires room { 2 + PEER_LIMIT ≤ out.old.room }
    ensures value { out.new ≡ appended out.old (comma_text at) }
    ensures short { length (comma_text at) ≤ 2 + PEER_LIMIT }
{
    if let Some(peer) = at {
        out.push(b", ");
        push_peer(peer, out);
    }
}

/// Writes a termination with this name, or without a name if `name` is empty.
#[tactic(auto, using(crate::proofs::LineLemmas::steps))]
fn push_called(name: &[u8], number: u32, at: Option<Peer>, out: &mut Bytes)
    requires name { length name.now ≤ NAME_ROOM }
    requires room { PARTY_LIMIT ≤ out.old.room }
    ensures value { out.new ≡ appended out.old (called_text name.now number at) }
    ensures short { length (called_text name.now number at) ≤ PARTY_LIMIT }
{
    if name.is_empty() {
        push_name(number, out);
        push_at(at, out);
    } else {
        out.push(name);
        out.push(b" (");
        push_name(number, out);
        push_comma(at, out);
        out.push(b")");
    }
}

/// Writes a termination: its number and, if it has them, its name and its Remote.
fn push_party(names: &Names, number: u32, at: Option<Peer>, out: &mut Bytes)
    requires room { PARTY_LIMIT ≤ out.old.room }
    ensures value { out.new ≡ appended out.old (called_party names.now number at) }
    ensures short { length (called_party names.now number at) ≤ PARTY_LIMIT }
{
    push_called(names.name_of(number, at), number, at, out);
}

/// Writes a tick and, if it is known, the tick's time.
#[tactic(auto, using(crate::proofs::LineLemmas::steps))]
fn push_moment(time: &[u8], tick: u64, date: Option<Date>, out: &mut Bytes)
    requires time { length time.now ≤ TIME_LIMIT }
    requires room { MOMENT_LIMIT ≤ out.old.room }
    ensures value { out.new ≡ appended out.old (moment_text time.now tick date) }
    ensures short { length (moment_text time.now tick date) ≤ MOMENT_LIMIT }
{
    match date {
        Some(_) => {
            out.push(time);
            out.push(b" (tick ");
            push_number(tick, out);
            out.push(b")");
        }
        None => {
            out.push(b"tick ");
            push_number(tick, out);
        }
    }
}

/// Writes the end of an interval or a gap.
#[tactic(auto, using(crate::proofs::LineLemmas::steps))]
fn push_end(time: &[u8], end: Option<Moment>, out: &mut Bytes)
    requires time { length time.now ≤ TIME_LIMIT }
    requires room { MOMENT_LIMIT ≤ out.old.room }
    ensures value { out.new ≡ appended out.old (end_text time.now end) }
    ensures short { length (end_text time.now end) ≤ MOMENT_LIMIT }
{
    match end {
        Some(end) => push_moment(time, end.tick, end.date, out),
        None => out.push(b"the end"),
    }
}

/// Writes the beginning and the end of an interval or a gap.
#[tactic(auto, using(crate::proofs::LineLemmas::steps))]
fn push_extent(from: &[u8], until: &[u8], first: Moment, end: Option<Moment>, out: &mut Bytes)
    requires from { length from.now ≤ TIME_LIMIT }
    requires until { length until.now ≤ TIME_LIMIT }
    requires room { EXTENT_LIMIT ≤ out.old.room }
    ensures value { out.new ≡ appended out.old (extent_text from.now until.now first end) }
    ensures short { length (extent_text from.now until.now first end) ≤ EXTENT_LIMIT }
{
    out.push(b" from ");
    push_moment(from, first.tick, first.date, out);
    out.push(b" until ");
    push_end(until, end, out);
    out.push(b"\n");
}

/// Writes the sentence for an interval.
#[tactic(auto, using(crate::proofs::LineLemmas::steps))]
fn push_sentence(
    claim: Claim,
    from: &[u8],
    until: &[u8],
    names: &Names,
    interval: &Interval,
    out: &mut Bytes,
)
    requires from { length from.now ≤ TIME_LIMIT }
    requires until { length until.now ≤ TIME_LIMIT }
    requires room { LINE_LIMIT ≤ out.old.room }
    ensures value { out.new ≡ appended out.old (sentence_of claim from.now until.now names.now interval.now) }
    ensures short { length (sentence_of claim from.now until.now names.now interval.now) ≤ LINE_LIMIT }
{
    let flow = &interval.flow;
    push_party(names, flow.listener, flow.listener_at, out);
    out.push(claim.verb());
    push_party(names, flow.talker, flow.talker_at, out);
    out.push(b" in context ");
    push_context(flow.context, out);
    push_extent(from, until, interval.first, interval.end, out);
}

// ## Rows

/// Writes a peer, or nothing if there is none.
fn push_optional_peer(peer: Option<Peer>, out: &mut Bytes)
    requires room { PEER_LIMIT ≤ out.old.room }
    ensures value { out.new ≡ appended out.old (peer_column peer) }
    ensures short { length (peer_column peer) ≤ PEER_LIMIT }
{
    if let Some(peer) = peer {
        push_peer(peer, out);
    }
}

/// Writes the tick at which an interval or a gap ends, or nothing if it has no end.
fn push_optional_tick(end: Option<Moment>, out: &mut Bytes)
    requires room { NUMBER_LIMIT ≤ out.old.room }
    ensures value { out.new ≡ appended out.old (tick_column end) }
    ensures short { length (tick_column end) ≤ NUMBER_LIMIT }
{
    if let Some(end) = end {
        push_number(end.tick, out);
    }
}

/// Writes a time, or nothing if it is not known.
fn push_optional_time(time: &[u8], date: Option<Date>, out: &mut Bytes)
    requires time { length time.now ≤ TIME_LIMIT }
    requires room { TIME_LIMIT ≤ out.old.room }
    ensures value { out.new ≡ appended out.old (time_column time.now date) }
    ensures short { length (time_column time.now date) ≤ TIME_LIMIT }
{
    if date.is_some() {
        out.push(time);
    }
}

/// Returns the date at which an interval or a gap ends, or `None` if it has no end or the date is not known.
fn date_of_end(end: Option<Moment>) -> Option<Date>
    ensures value { result ≡ date_of_end end }
{
    match end {
        Some(end) => end.date,
        None => None,
    }
}

/// Writes the columns for a beginning and an end.
#[tactic(auto, using(crate::proofs::LineLemmas::steps))]
fn push_extent_columns(
    from: &[u8],
    until: &[u8],
    first: Moment,
    end: Option<Moment>,
    out: &mut Bytes,
)
    requires from { length from.now ≤ TIME_LIMIT }
    requires until { length until.now ≤ TIME_LIMIT }
    requires room { COLUMNS_LIMIT ≤ out.old.room }
    ensures value { out.new ≡ appended out.old (extent_columns from.now until.now first end) }
    ensures short { length (extent_columns from.now until.now first end) ≤ COLUMNS_LIMIT }
{
    push_number(first.tick, out);
    out.push(b",");
    push_optional_tick(end, out);
    out.push(b",");
    push_optional_time(from, first.date, out);
    out.push(b",");
    push_optional_time(until, date_of_end(end), out);
}

/// Writes a name in quotes, or nothing if `name` is empty.
#[tactic(auto, using(crate::proofs::LineLemmas::steps))]
fn push_optional_name(name: &[u8], out: &mut Bytes)
    requires name { length name.now ≤ NAME_ROOM }
    requires room { 2 + NAME_ROOM ≤ out.old.room }
    ensures value { out.new ≡ appended out.old (name_column name.now) }
    ensures short { length (name_column name.now) ≤ 2 + NAME_ROOM }
{
    if !name.is_empty() {
        out.push(b"\"");
        out.push(name);
        out.push(b"\"");
    }
}

/// Writes the columns for the names of a listener and a talker.
#[tactic(auto, using(crate::proofs::LineLemmas::steps))]
fn push_name_columns(names: &Names, flow: &OpenFlow, out: &mut Bytes)
    requires room { 7 + 2 * NAME_ROOM ≤ out.old.room }
    ensures value { out.new ≡ appended out.old (name_columns names.now flow.now) }
    ensures short { length (name_columns names.now flow.now) ≤ 7 + 2 * NAME_ROOM }
{
    out.push(b",");
    push_optional_name(names.name_of(flow.listener, flow.listener_at), out);
    out.push(b",");
    push_optional_name(names.name_of(flow.talker, flow.talker_at), out);
    out.push(b"\n");
}

/// Writes the row for an interval.
#[tactic(auto, using(crate::proofs::LineLemmas::steps))]
fn push_row(
    claim: Claim,
    from: &[u8],
    until: &[u8],
    names: &Names,
    interval: &Interval,
    out: &mut Bytes,
)
    requires from { length from.now ≤ TIME_LIMIT }
    requires until { length until.now ≤ TIME_LIMIT }
    requires room { LINE_LIMIT ≤ out.old.room }
    ensures value { out.new ≡ appended out.old (interval_row claim from.now until.now names.now interval.now) }
    ensures short { length (interval_row claim from.now until.now names.now interval.now) ≤ LINE_LIMIT }
{
    let flow = &interval.flow;
    out.push(claim.kind());
    out.push(b",");
    push_name(flow.listener, out);
    out.push(b",");
    push_optional_peer(flow.listener_at, out);
    out.push(b",");
    push_name(flow.talker, out);
    out.push(b",");
    push_optional_peer(flow.talker_at, out);
    out.push(b",");
    push_context(flow.context, out);
    out.push(b",");
    push_extent_columns(from, until, interval.first, interval.end, out);
    push_name_columns(names, flow, out);
}

// ## Objects

/// Writes a peer as a string, or `null` if there is none.
#[tactic(auto, using(crate::proofs::LineLemmas::steps))]
fn push_peer_value(peer: Option<Peer>, out: &mut Bytes)
    requires room { 2 + PEER_LIMIT ≤ out.old.room }
    ensures value { out.new ≡ appended out.old (peer_member peer) }
    ensures short { length (peer_member peer) ≤ 2 + PEER_LIMIT }
{
    match peer {
        Some(peer) => {
            out.push(b"\"");
            push_peer(peer, out);
            out.push(b"\"");
        }
        None => out.push(b"null"),
    }
}

/// Writes the tick at which an interval or a gap ends, or `null` if it has no end.
fn push_tick_value(end: Option<Moment>, out: &mut Bytes)
    requires room { NUMBER_LIMIT ≤ out.old.room }
    ensures value { out.new ≡ appended out.old (tick_member end) }
    ensures short { length (tick_member end) ≤ NUMBER_LIMIT }
{
    match end {
        Some(end) => push_number(end.tick, out),
        None => out.push(b"null"),
    }
}

/// Writes a time as a string, or `null` if it is not known.
#[tactic(auto, using(crate::proofs::LineLemmas::steps))]
fn push_time_value(time: &[u8], date: Option<Date>, out: &mut Bytes)
    requires time { length time.now ≤ TIME_LIMIT }
    requires room { 2 + TIME_LIMIT ≤ out.old.room }
    ensures value { out.new ≡ appended out.old (time_member time.now date) }
    ensures short { length (time_member time.now date) ≤ 2 + TIME_LIMIT }
{
    match date {
        Some(_) => {
            out.push(b"\"");
            out.push(time);
            out.push(b"\"");
        }
        None => out.push(b"null"),
    }
}

/// Writes the members for a beginning and an end.
#[tactic(auto, using(crate::proofs::LineLemmas::steps))]
fn push_extent_members(
    from: &[u8],
    until: &[u8],
    first: Moment,
    end: Option<Moment>,
    out: &mut Bytes,
)
    requires from { length from.now ≤ TIME_LIMIT }
    requires until { length until.now ≤ TIME_LIMIT }
    requires room { MEMBERS_LIMIT ≤ out.old.room }
    ensures value { out.new ≡ appended out.old (extent_members from.now until.now first end) }
    ensures short { length (extent_members from.now until.now first end) ≤ MEMBERS_LIMIT }
{
    out.push(b",\"first_tick\":");
    push_number(first.tick, out);
    out.push(b",\"end_tick\":");
    push_tick_value(end, out);
    out.push(b",\"from\":");
    push_time_value(from, first.date, out);
    out.push(b",\"until\":");
    push_time_value(until, date_of_end(end), out);
}

/// Writes a name as a string, or `null` if `name` is empty.
#[tactic(auto, using(crate::proofs::LineLemmas::steps))]
fn push_name_value(name: &[u8], out: &mut Bytes)
    requires name { length name.now ≤ NAME_ROOM }
    requires room { 2 + NAME_ROOM ≤ out.old.room }
    ensures value { out.new ≡ appended out.old (name_member name.now) }
    ensures short { length (name_member name.now) ≤ 2 + NAME_ROOM }
{
    if name.is_empty() {
        out.push(b"null");
    } else {
        out.push(b"\"");
        out.push(name);
        out.push(b"\"");
    }
}

/// Writes the members for the names of a listener and a talker, and closes the object.
#[tactic(auto, using(crate::proofs::LineLemmas::steps))]
fn push_name_members(names: &Names, flow: &OpenFlow, out: &mut Bytes)
    requires room { 38 + 2 * NAME_ROOM ≤ out.old.room }
    ensures value { out.new ≡ appended out.old (name_members names.now flow.now) }
    ensures short { length (name_members names.now flow.now) ≤ 38 + 2 * NAME_ROOM }
{
    out.push(b",\"listener_name\":");
    push_name_value(names.name_of(flow.listener, flow.listener_at), out);
    out.push(b",\"talker_name\":");
    push_name_value(names.name_of(flow.talker, flow.talker_at), out);
    out.push(b"}\n");
}

/// Writes the object for an interval.
#[tactic(auto, using(crate::proofs::LineLemmas::steps))]
fn push_object(
    claim: Claim,
    from: &[u8],
    until: &[u8],
    names: &Names,
    interval: &Interval,
    out: &mut Bytes,
)
    requires from { length from.now ≤ TIME_LIMIT }
    requires until { length until.now ≤ TIME_LIMIT }
    requires room { LINE_LIMIT ≤ out.old.room }
    ensures value { out.new ≡ appended out.old (interval_object claim from.now until.now names.now interval.now) }
    ensures short { length (interval_object claim from.now until.now names.now interval.now) ≤ LINE_LIMIT }
{
    let flow = &interval.flow;
    out.push(b"{\"kind\":\"");
    out.push(claim.kind());
    out.push(b"\",\"listener\":\"");
    push_name(flow.listener, out);
    out.push(b"\",\"listener_at\":");
    push_peer_value(flow.listener_at, out);
    out.push(b",\"talker\":\"");
    push_name(flow.talker, out);
    out.push(b"\",\"talker_at\":");
    push_peer_value(flow.talker_at, out);
    out.push(b",\"context\":");
    push_context(flow.context, out);
    push_extent_members(from, until, interval.first, interval.end, out);
    push_name_members(names, flow, out);
}

// ## Rows of a page

/// Writes the tick at which a bar ends. A bar without an end ends with the timeline.
#[tactic(auto, using(crate::proofs::LineLemmas::steps))]
fn push_bar_end(end: Option<Moment>, out: &mut Bytes)
    requires room { NUMBER_LIMIT ≤ out.old.room }
    ensures value { out.new ≡ appended out.old (bar_end end) }
    ensures short { length (bar_end end) ≤ NUMBER_LIMIT }
{
    match end {
        Some(end) => push_number(end.tick, out),
        None => out.push(b"var(--t1)"),
    }
}

/// Writes the ticks between which the page draws a row's bar.
#[tactic(auto, using(crate::proofs::LineLemmas::steps))]
fn push_bar(first: Moment, end: Option<Moment>, out: &mut Bytes)
    requires room { BAR_LIMIT ≤ out.old.room }
    ensures value { out.new ≡ appended out.old (bar_of first end) }
    ensures short { length (bar_of first end) ≤ BAR_LIMIT }
{
    out.push(b"style=\"--a:");
    push_number(first.tick, out);
    out.push(b";--b:");
    push_bar_end(end, out);
    out.push(b"\">");
}

/// Writes a row's last three cells: the beginning, the end and the bar.
#[tactic(auto, using(crate::proofs::LineLemmas::steps))]
fn push_extent_cells(from: &[u8], until: &[u8], first: Moment, end: Option<Moment>, out: &mut Bytes)
    requires from { length from.now ≤ TIME_LIMIT }
    requires until { length until.now ≤ TIME_LIMIT }
    requires room { CELLS_LIMIT ≤ out.old.room }
    ensures value { out.new ≡ appended out.old (extent_cells from.now until.now first end) }
    ensures short { length (extent_cells from.now until.now first end) ≤ CELLS_LIMIT }
{
    out.push(b"<td>");
    push_moment(from, first.tick, first.date, out);
    out.push(b"</td><td>");
    push_end(until, end, out);
    out.push(b"</td><td><div></div></td></tr>\n");
}

/// Writes a termination to a page, with this name, or without a name if `name` is empty.
#[tactic(auto, using(crate::proofs::LineLemmas::steps))]
fn push_shown(name: &[u8], number: u32, at: Option<Peer>, out: &mut Bytes)
    requires name { length name.now ≤ NAME_ROOM }
    requires room { SHOWN_LIMIT ≤ out.old.room }
    ensures value { out.new ≡ appended out.old (shown_text name.now number at) }
    ensures short { length (shown_text name.now number at) ≤ SHOWN_LIMIT }
{
    if name.is_empty() {
        push_name(number, out);
        push_at(at, out);
    } else {
        push_escaped(name, out);
        out.push(b" (");
        push_name(number, out);
        push_comma(at, out);
        out.push(b")");
    }
}

/// Writes a termination to a page: its number and, if it has them, its name and its Remote.
fn push_shown_party(names: &Names, number: u32, at: Option<Peer>, out: &mut Bytes)
    requires room { SHOWN_LIMIT ≤ out.old.room }
    ensures value { out.new ≡ appended out.old (shown_party names.now number at) }
    ensures short { length (shown_party names.now number at) ≤ SHOWN_LIMIT }
{
    push_shown(names.name_of(number, at), number, at, out);
}

/// Writes the row of a table for an interval.
#[tactic(auto, using(crate::proofs::LineLemmas::steps))]
fn push_table_row(from: &[u8], until: &[u8], names: &Names, interval: &Interval, out: &mut Bytes)
    requires from { length from.now ≤ TIME_LIMIT }
    requires until { length until.now ≤ TIME_LIMIT }
    requires room { LINE_LIMIT ≤ out.old.room }
    ensures value { out.new ≡ appended out.old (table_row_shape from.now until.now names.now interval.now) }
    ensures short { length (table_row_shape from.now until.now names.now interval.now) ≤ LINE_LIMIT }
{
    let flow = &interval.flow;
    out.push(b"<tr ");
    push_bar(interval.first, interval.end, out);
    out.push(b"<th scope=\"row\">");
    push_shown_party(names, flow.listener, flow.listener_at, out);
    out.push(b"</th><td>");
    push_shown_party(names, flow.talker, flow.talker_at, out);
    out.push(b"</td><td>");
    push_context(flow.context, out);
    out.push(b"</td>");
    push_extent_cells(from, until, interval.first, interval.end, out);
}

/// Writes the word for a gap.
#[tactic(auto, using(crate::proofs::LineLemmas::steps))]
fn push_gap_word(gap: &Gap, out: &mut Bytes)
    requires room { GAP_LIMIT ≤ out.old.room }
    ensures value { out.new ≡ appended out.old (gap_word gap.now) }
    ensures short { length (gap_word gap.now) ≤ GAP_LIMIT }
{
    match gap.fence {
        Some(number) => {
            out.push(b"fence ");
            push_number(u64::from(number), out);
        }
        None => out.push(b"gap"),
    }
}

/// Writes the row of a table for a gap.
#[tactic(auto, using(crate::proofs::LineLemmas::steps))]
fn push_gap_row(from: &[u8], until: &[u8], gap: &Gap, out: &mut Bytes)
    requires from { length from.now ≤ TIME_LIMIT }
    requires until { length until.now ≤ TIME_LIMIT }
    requires room { LINE_LIMIT ≤ out.old.room }
    ensures value { out.new ≡ appended out.old (gap_shape Page from.now until.now gap.now) }
    ensures short { length (gap_shape Page from.now until.now gap.now) ≤ LINE_LIMIT }
{
    out.push(b"<tr class=\"gap\" ");
    push_bar(gap.first, Some(gap.end), out);
    out.push(b"<th scope=\"row\" colspan=\"3\">");
    push_gap_word(gap, out);
    out.push(b"</th>");
    push_extent_cells(from, until, gap.first, Some(gap.end), out);
}

/// Writes the beginning of a table, with its header.
#[tactic(auto, using(crate::proofs::LineLemmas::steps))]
fn push_table_head(out: &mut Bytes)
    requires room { LINE_LIMIT ≤ out.old.room }
    ensures value { out.new ≡ appended out.old (head_of Page) }
{
    out.push(b"<table>\n<thead><tr><th scope=\"col\">Listener</th><th scope=\"col\">Talker</th>");
    out.push(
        b"<th scope=\"col\">Context</th><th scope=\"col\">From</th><th scope=\"col\">Until</th>",
    );
    out.push(b"<th scope=\"col\">Timeline</th></tr></thead>\n<tbody>\n");
}

// ## Each format

/// Writes the header: the column names in CSV and on a page, and nothing in the other formats.
#[tactic(auto, using(crate::proofs::LineLemmas::steps))]
pub(crate) fn push_head(format: Format, out: &mut Bytes)
    requires room { LINE_LIMIT ≤ out.old.room }
    ensures value { out.new ≡ appended out.old (head_of format) }
{
    match format {
        Format::Csv => {
            out.push(
                b"kind,listener,listener_at,talker,talker_at,context,first_tick,end_tick,from,until",
            );
            out.push(b",listener_name,talker_name\n");
        }
        Format::Page => push_table_head(out),
        Format::Text => {}
        Format::Json => {}
    }
}

/// Writes the line for an interval.
fn push_interval(
    claim: Claim,
    style: &Style,
    from: &[u8],
    until: &[u8],
    interval: &Interval,
    out: &mut Bytes,
)
    requires from { length from.now ≤ TIME_LIMIT }
    requires until { length until.now ≤ TIME_LIMIT }
    requires room { LINE_LIMIT ≤ out.old.room }
    ensures value { out.new ≡ appended out.old (interval_shape claim style.now.format from.now until.now style.now.names interval.now) }
    ensures short { length (interval_shape claim style.now.format from.now until.now style.now.names interval.now) ≤ LINE_LIMIT }
{
    let names = &style.names;
    match style.format {
        Format::Text => push_sentence(claim, from, until, names, interval, out),
        Format::Csv => push_row(claim, from, until, names, interval, out),
        Format::Json => push_object(claim, from, until, names, interval, out),
        Format::Page => push_table_row(from, until, names, interval, out),
    }
}

/// Writes the line for a gap.
#[tactic(auto, using(crate::proofs::LineLemmas::steps))]
fn push_gap(format: Format, from: &[u8], until: &[u8], gap: &Gap, out: &mut Bytes)
    requires from { length from.now ≤ TIME_LIMIT }
    requires until { length until.now ≤ TIME_LIMIT }
    requires room { LINE_LIMIT ≤ out.old.room }
    ensures value { out.new ≡ appended out.old (gap_shape format from.now until.now gap.now) }
    ensures short { length (gap_shape format from.now until.now gap.now) ≤ LINE_LIMIT }
{
    match format {
        Format::Text => {
            push_gap_word(gap, out);
            push_extent(from, until, gap.first, Some(gap.end), out);
        }
        Format::Csv => {
            push_gap_word(gap, out);
            out.push(b",,,,,,");
            push_extent_columns(from, until, gap.first, Some(gap.end), out);
            out.push(b",,\n");
        }
        Format::Json => {
            out.push(b"{\"kind\":\"");
            push_gap_word(gap, out);
            out.push(b"\"");
            push_extent_members(from, until, gap.first, Some(gap.end), out);
            out.push(b"}\n");
        }
        Format::Page => push_gap_row(from, until, gap, out),
    }
}

/// Writes the line for an interval or a gap, given its two dates as text.
pub(crate) fn push_entry(style: &Style, from: &[u8], until: &[u8], entry: &Entry, out: &mut Bytes)
    requires from { length from.now ≤ TIME_LIMIT }
    requires until { length until.now ≤ TIME_LIMIT }
    requires room { LINE_LIMIT ≤ out.old.room }
    ensures value { out.new ≡ appended out.old (line_of style.now from.now until.now entry.now) }
    ensures short { length (line_of style.now from.now until.now entry.now) ≤ LINE_LIMIT }
{
    match entry {
        Entry::Interval(interval) => {
            push_interval(Claim::CouldHear, style, from, until, interval, out);
        }
        Entry::Gap(gap) => push_gap(style.format, from, until, gap, out),
        Entry::Audible(interval) => {
            push_interval(Claim::Heard, style, from, until, interval, out);
        }
    }
}

/// Returns the line that says that a talker could not be heard at a given time.
pub(crate) fn not_heard_line(format: Format) -> &'static [u8]
    ensures value { result.now ≡ answer_line format (codes "could not hear\n") (codes "not heard") }
{
    match format {
        Format::Text | Format::Page => b"could not hear\n",
        Format::Csv => b"not heard,,,,,,,,,,,\n",
        Format::Json => b"{\"kind\":\"not heard\"}\n",
    }
}

/// Returns the line that says that a script doesn't answer a question about a given time.
pub(crate) fn unknown_line(format: Format) -> &'static [u8]
    ensures value { result.now ≡ answer_line format (codes "not known\n") (codes "not known") }
{
    match format {
        Format::Text | Format::Page => b"not known\n",
        Format::Csv => b"not known,,,,,,,,,,,\n",
        Format::Json => b"{\"kind\":\"not known\"}\n",
    }
}

// ## Violations

/// Writes the sentence for a violation.
#[tactic(auto, using(crate::proofs::LineLemmas::steps))]
fn push_violation_sentence(time: &[u8], names: &Names, violation: &Violation, out: &mut Bytes)
    requires time { length time.now ≤ TIME_LIMIT }
    requires room { LINE_LIMIT ≤ out.old.room }
    ensures value { out.new ≡ appended out.old (violation_sentence time.now names.now violation.now) }
    ensures short { length (violation_sentence time.now names.now violation.now) ≤ LINE_LIMIT }
{
    let flow = &violation.flow;
    let at = violation.at;
    push_party(names, flow.listener, flow.listener_at, out);
    out.push(b" could hear ");
    push_party(names, flow.talker, flow.talker_at, out);
    out.push(b" in context ");
    push_context(flow.context, out);
    out.push(b" from ");
    push_moment(time, at.tick, at.date, out);
    out.push(b"\n");
}

/// Returns the interval that begins with a violation.
fn interval_from(violation: &Violation) -> Interval
    ensures value { result ≡ record { flow = violation.now.flow; first = violation.now.at; end = None } }
{
    Interval {
        flow: violation.flow,
        first: violation.at,
        end: None,
    }
}

/// Writes the line for a violation, given its date as text.
pub(crate) fn push_violation(style: &Style, time: &[u8], violation: &Violation, out: &mut Bytes)
    requires time { length time.now ≤ TIME_LIMIT }
    requires room { LINE_LIMIT ≤ out.old.room }
    ensures value { out.new ≡ appended out.old (violation_line style.now.format time.now style.now.names violation.now) }
    ensures short { length (violation_line style.now.format time.now style.now.names violation.now) ≤ LINE_LIMIT }
{
    let names = &style.names;
    let claim = Claim::CouldHear;
    match style.format {
        Format::Text | Format::Page => push_violation_sentence(time, names, violation, out),
        Format::Csv => push_row(claim, time, b"", names, &interval_from(violation), out),
        Format::Json => push_object(claim, time, b"", names, &interval_from(violation), out),
    }
}
