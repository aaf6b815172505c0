ghost use Rattle.std.specs.Prelude.{◌≡◌, ◌≤◌, ◌+◌, ◌*◌, ◌++◌, [], ◌∷◌, true, length, None};
ghost use Rattle.mg_commands.specs.Transaction.{replied};
ghost use Rattle.mg_commands.specs.Work.{edits_reported};
ghost use Rattle.mg_engine.specs.Work.{RisesAtMost};
ghost use Rattle.mg_kept.specs.KeptReplies.{kept_text};
ghost use Rattle.mg_bytes.specs.Bytes.{appended};
ghost use Rattle.mg_words.specs.ErrorNumber.{error_text};
ghost use Rattle.mg_reply.specs.aids.Whole.{IsWhole};
ghost use Rattle.mg_reply.specs.Written.{head_text};
ghost use Rattle.mg_text.specs.Message.{items_of, requests_in};
ghost use Rattle.mg_text.specs.Proper.{are_proper, item_is_proper, request_is_proper};
ghost use Rattle.mg_core.specs.Answer.{has_requests, item_replied, mark_after, replied_to, request_replied, run_and_kept, without_ranges};
ghost use Rattle.mg_core.specs.World.{World};
ghost use Rattle.mg_core.specs.aids.Stands.{StandsFor};
ghost use Rattle.mg_core.specs.Work.{edits_by_item, edits_by_items};
ghost use Rattle.mg_core.specs.aids.Steps.{TextGrows, put_text, refusal_of};

use crate::state::CoreState;
use mg_bytes::Bytes;
use mg_commands::{Kept, transaction};
use mg_engine::Config;
use mg_reply::theorems::too_long_by_text;
use mg_reply::{HEAD_LIMIT, Item, Reply, write_error, write_head, write_reply};
use mg_text::{
    Body, ERROR_LIMIT, ErrorNumber, MessageItem, REPLY_LIMIT, Range, ReadFault, Request,
};
use mg_words::SENDER_LIMIT;

/// The maximum length, in bytes, of a reply and the line feed before it.
pub const REPLY_ROOM: usize = 1 + REPLY_LIMIT;

/// Returns the error for a message with this fault, or `None` if memory ran out.
pub fn refusal_of(fault: ReadFault) -> Option<ErrorNumber>
    ensures value { result ≡ refusal_of fault }
{
    match fault {
        ReadFault::Syntax(_) => Some(ErrorNumber::Syntax),
        ReadFault::Version(_) => Some(ErrorNumber::Version),
        ReadFault::TooMany => Some(ErrorNumber::NotServed),
        ReadFault::NoMemory => None,
    }
}

/// Writes the answer to a message that is rejected as a whole: a head and the error.
#[tactic(auto, using(crate::proofs::AnswerLemmas::totals))]
pub fn put_error(config: &Config, number: ErrorNumber, answer: &mut Bytes)
    requires room { HEAD_LIMIT + ERROR_LIMIT ≤ answer.old.room }
    ensures text { answer.new.text ≡ answer.old.text
        ++ (head_text config.now.control_address config.now.control_port ++ error_text number) }
    ensures total { answer.new.room + length answer.new.text ≡ answer.old.room + length answer.old.text }
{
    write_head(config.control_address, config.control_port, answer);
    write_error(number, answer);
}

/// Returns the items of a body. An ignored body has no items.
pub fn items_of(body: &Body) -> &[MessageItem]
    ensures value { result.now ≡ items_of body.now }
{
    match body {
        Body::Requests(items) => items.as_slice(),
        Body::Ignored => &[],
    }
}

/// Returns whether any of the items is a request.
pub fn has_requests(items: &[MessageItem]) -> bool
    ensures value { result ≡ has_requests items.now }
{
    items
        .iter()
        .any(|item| matches!(item, MessageItem::Request(_)))
}

/// Writes a reply or, if it exceeds 16,000 bytes, an error instead.
#[tactic(auto, using(crate::proofs::ReplyLemmas::sending))]
fn put_reply(reply: &mut Reply, answer: &mut Bytes)
    requires whole { IsWhole reply.old }
    requires room { REPLY_LIMIT ≤ answer.old.room }
    ensures text { answer.new ≡ appended answer.old (put_text reply.old) }
    ensures short { length (put_text reply.old) ≤ REPLY_LIMIT }
{
    if write_reply(reply, answer).is_ok() {
        return;
    }
    let number = reply.number();
    reply.start(number);
    reply.put(Item::Fault(ErrorNumber::ReplyTooLong));
    write_reply(reply, answer).unwrap();
}

/// Runs a sender's request, and writes and keeps its reply. The request must not have a kept reply yet.
fn run_request(
    state: &mut CoreState,
    source: &[u8],
    sender: &[u8],
    request: &Request,
    reply: &mut Reply,
    answer: &mut Bytes,
)
    requires proper { request_is_proper source.now request.now ≡ true }
    requires sender { length sender.now ≤ SENDER_LIMIT }
    requires room { REPLY_LIMIT ≤ answer.old.room }
    requires new { kept_text state.old.kept sender.now request.now.number ≡ None }
    ensures ran { TextGrows state.old state.new answer.old.text answer.new.text (λ w.
        run_and_kept sender.now request.now.number w (replied source.now request.now w.gateway)) }
    ensures work { (w : World) → StandsFor state.old w →
        RisesAtMost (4 * edits_reported (replied source.now request.now w.gateway).items) state.old.engine.sums.work
        state.new.engine.sums.work }
    ensures total { answer.new.room + length answer.new.text ≡ answer.old.room + length answer.old.text }
    ensures short { length answer.new.text ≤ length answer.old.text + REPLY_LIMIT }
{
    let start = answer.as_slice().len();
    transaction(&mut state.engine, source, request, reply);
    too_long_by_text();
    put_reply(reply, answer);
    let (_, text) = answer.as_slice().split_at(start);
    state.kept.keep(sender, request.number, text);
}

/// Writes the reply to a sender's request: the kept reply if there is one, and otherwise the reply that results from
/// running the request.
fn put_request(
    state: &mut CoreState,
    source: &[u8],
    sender: &[u8],
    request: &Request,
    reply: &mut Reply,
    answer: &mut Bytes,
)
    requires proper { request_is_proper source.now request.now ≡ true }
    requires sender { length sender.now ≤ SENDER_LIMIT }
    requires room { REPLY_LIMIT ≤ answer.old.room }
    ensures ran { TextGrows state.old state.new answer.old.text answer.new.text
        (request_replied source.now sender.now request.now) }
    ensures work { (w : World) → StandsFor state.old w →
        RisesAtMost (4 * edits_by_item source.now sender.now (MessageItem.Request request.now) w)
        state.old.engine.sums.work state.new.engine.sums.work }
    ensures total { answer.new.room + length answer.new.text ≡ answer.old.room + length answer.old.text }
    ensures short { length answer.new.text ≤ length answer.old.text + REPLY_LIMIT }
{
    match state.kept.find(sender, request.number) {
        Some(text) => answer.push(text),
        None => run_request(state, source, sender, request, reply, answer),
    }
}

/// Drops a sender's kept replies with these numbers.
fn acknowledge(kept: &mut Kept, sender: &[u8], ranges: &[Range])
    ensures value { kept.new ≡ without_ranges sender.now ranges.now kept.old }
{
    for range in ranges {
        kept.ack(sender, range.first, range.last);
    }
}

/// Handles an item of the message `source`. For a request, writes the separator `mark` and then the reply.
///
/// Returns the separator for the next reply.
#[tactic(auto, using(crate::proofs::ReplyLemmas::one_reply))]
fn put_item<'m>(
    state: &mut CoreState,
    source: &[u8],
    sender: &[u8],
    item: &MessageItem,
    mark: &'m [u8],
    reply: &mut Reply,
    answer: &mut Bytes,
) -> &'m [u8]
    requires proper { item_is_proper source.now item.now ≡ true }
    requires sender { length sender.now ≤ SENDER_LIMIT }
    requires room { REPLY_ROOM * requests_in (item.now ∷ []) + length mark.now ≤ 1 + answer.old.room }
    ensures ran { TextGrows state.old state.new answer.old.text answer.new.text
        (item_replied source.now sender.now mark.now item.now) }
    ensures work { (w : World) → StandsFor state.old w →
        RisesAtMost (4 * edits_by_item source.now sender.now item.now w) state.old.engine.sums.work
        state.new.engine.sums.work }
    ensures mark { result.now ≡ mark_after mark.now item.now }
    ensures total { answer.new.room + length answer.new.text ≡ answer.old.room + length answer.old.text }
    ensures short { length answer.new.text + length result.now
        ≤ length answer.old.text + length mark.now + REPLY_ROOM * requests_in (item.now ∷ []) }
{
    match item {
        MessageItem::Request(request) => {
            answer.push(mark);
            put_request(state, source, sender, request, reply, answer);
            b"\n"
        }
        MessageItem::Acknowledgement(ranges) => {
            acknowledge(&mut state.kept, sender, ranges.as_slice());
            mark
        }
    }
}

/// Handles the items of the message `source`, and writes the replies to its requests, separated by line feeds.
#[tactic(auto, using(crate::proofs::ReplyLemmas::replying))]
pub fn put_replies(
    state: &mut CoreState,
    source: &[u8],
    sender: &[u8],
    items: &[MessageItem],
    reply: &mut Reply,
    answer: &mut Bytes,
)
    requires proper { are_proper source.now items.now ≡ true }
    requires sender { length sender.now ≤ SENDER_LIMIT }
    requires room { REPLY_ROOM * requests_in items.now ≤ 1 + answer.old.room }
    ensures ran { TextGrows state.old state.new answer.old.text answer.new.text
        (replied_to source.now sender.now [] items.now) }
    ensures work { (w : World) → StandsFor state.old w →
        RisesAtMost (4 * edits_by_items source.now sender.now items.now w) state.old.engine.sums.work
        state.new.engine.sums.work }
    ensures total { answer.new.room + length answer.new.text ≡ answer.old.room + length answer.old.text }
{
    let mut mark: &[u8] = b"";
    for item in items {
        mark = put_item(state, source, sender, item, mark, reply, answer);
    }
}
