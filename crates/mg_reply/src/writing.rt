ghost use Rattle.std.specs.Prelude.{◌≡◌, ◌≤◌, ◌||◌, ◌++◌, nat_lt, length, OnOk, OnErr, is_err};
ghost use Rattle.mg_words.specs.Limits.{reply_limit};
ghost use Rattle.mg_bytes.specs.Bytes.{appended};
ghost use Rattle.mg_reply.specs.aids.Draft.{drafted};
ghost use Rattle.mg_words.specs.ErrorNumber.{error_text};
ghost use Rattle.mg_reply.specs.aids.Whole.{IsWhole};
ghost use Rattle.mg_reply.specs.Written.{head_text, items_text, reply_text};

use crate::action_writing::put_actions;
use crate::draft::Draft;
use crate::item::Item;
use crate::parts_writing::put_number;
use crate::reply::Reply;
use mg_bytes::{Bytes, PORT_LIMIT, write_address, write_port};
use mg_words::{ADDRESS_LIMIT, ERROR_LIMIT, ErrorNumber};

/// The reply had no room for an item, or its text would exceed 16,000 bytes. Nothing was written.
#[derive(Clone, Copy, Debug, PartialEq, Eq)]
pub struct TooLong;

/// The maximum length of a message head, in bytes: 13 for `MEGACO/1 []:` and a line feed, plus an address and a port.
pub const HEAD_LIMIT: usize = 13 + ADDRESS_LIMIT + PORT_LIMIT;

/// Writes the head (at most 33 bytes) of a message from the gateway at this address and port.
#[tactic(auto, using(crate::proofs::WrittenLemmas::lengths))]
pub fn write_head(address: [u8; 4], port: u16, out: &mut Bytes)
    requires room { HEAD_LIMIT ≤ out.old.room }
    ensures value { out.new ≡ appended out.old (head_text address port) }
    ensures short { length (head_text address port) ≤ HEAD_LIMIT }
{
    out.push(b"MEGACO/1 [");
    write_address(address, out);
    out.push(b"]:");
    write_port(port, out);
    out.push(b"\n");
}

/// Writes an error descriptor (at most 64 bytes).
#[tactic(auto, using(crate::proofs::WrittenLemmas::lengths))]
pub fn write_error(number: ErrorNumber, out: &mut Bytes)
    requires room { ERROR_LIMIT ≤ out.old.room }
    ensures value { out.new ≡ appended out.old (error_text number) }
    ensures short { length (error_text number) ≤ ERROR_LIMIT }
{
    out.push(number.descriptor().as_slice());
}

#[tactic(auto, using(crate::proofs::DraftLemmas::joins))]
fn put_items(draft: &mut Draft, items: &[Item])
    ensures value { draft.new ≡ drafted draft.old (items_text items.now) }
{
    match items {
        [Item::Fault(number)] => draft.put(number.descriptor().as_slice()),
        _ => put_actions(draft, items),
    }
}

#[tactic(auto, using(crate::proofs::DraftLemmas::joins))]
fn put_reply(draft: &mut Draft, number: u32, items: &[Item])
    ensures value { draft.new ≡ drafted draft.old (reply_text number items.now) }
{
    draft.put(b"Reply=");
    put_number(draft, u64::from(number));
    draft.put(b"{");
    put_items(draft, items);
    draft.put(b"}");
}

/// Appends the text of a reply to `out`.
///
/// Writes nothing if the reply is marked as too long, or if its text would exceed 16,000 bytes.
#[tactic(auto, unfolding(crate::specs::aids::Draft::drafted))]
pub fn write_reply(reply: &Reply, out: &mut Bytes) -> Result<(), TooLong>
    requires room { reply_limit ≤ out.old.room }
    requires whole { IsWhole reply.now }
    ensures ok { OnOk result (out.new ≡ appended out.old (reply_text reply.now.number reply.now.items)) }
    ensures too_long { is_err result ≡ (reply.now.is_long
        || nat_lt reply_limit (length (reply_text reply.now.number reply.now.items))) }
    ensures err { OnErr result (out.new ≡ out.old) }
{
    if reply.is_long() {
        return Err(TooLong);
    }
    let mut draft = Draft::begin(out);
    put_reply(&mut draft, reply.number(), reply.items());
    let (bytes, is_full) = draft.close();
    *out = bytes;
    if is_full { Err(TooLong) } else { Ok(()) }
}
