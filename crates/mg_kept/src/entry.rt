ghost use Rattle.std.specs.Prelude.{◌≡◌, ◌≤◌, length, IsOk};
ghost use Rattle.std.specs.Str.{str_eq_ignore_ascii_case};
ghost use Rattle.mg_kept.specs.KeptReplies.{is_from, is_reply_to, is_in_range};

use arrayvec::ArrayVec;
use mg_bytes::Bytes;
use mg_words::{REPLY_LIMIT, SENDER_LIMIT};
use std::alloc::{AllocError, Global};
use std::marker::Model;

/// A place for a kept reply, with room for the longest text. In contracts, only the reply appears.
#[derive(Drop)]
pub(crate) struct Entry {
    sender: ArrayVec<u8, SENDER_LIMIT>,
    number: u32,
    text: Bytes,
}

impl Model for Entry {
    ghost use Rattle.std.specs.Prelude.{◌≡◌, ◌+◌, length};
    ghost use Rattle.mg_words.specs.Limits.{reply_limit};
    ghost use Rattle.mg_kept.specs.KeptReplies.{KeptReply};

    ghost Value = { KeptReply };

    ghost view = { λ e. record { sender = e.sender.items; number = e.number; text = e.text.text } };

    ghost invariant = { λ e. e.text.room + length e.text.text ≡ reply_limit };
}

/// Returns whether two names are equal, ignoring case.
fn is_same_name(a: &[u8], b: &[u8]) -> bool
    ensures value { result ≡ str_eq_ignore_ascii_case a.now b.now }
{
    a.eq_ignore_ascii_case(b)
}

impl Entry {
    /// Creates a place without a reply. Fails only if the allocation fails.
    pub(crate) fn new(alloc: Global) -> Result<Self, AllocError> {
        Ok(Entry {
            sender: ArrayVec::new(),
            number: 0,
            text: Bytes::new(alloc, REPLY_LIMIT)?,
        })
    }

    /// Overwrites the place with another reply.
    pub(crate) fn set(&mut self, sender: &[u8], number: u32, text: &[u8])
        requires short { length sender.now ≤ SENDER_LIMIT }
        requires fits { length text.now ≤ REPLY_LIMIT }
        ensures value { self.new ≡ record { sender = sender.now; number = number; text = text.now } }
    {
        self.sender.clear();
        self.sender.try_extend_from_slice(sender).unwrap();
        self.number = number;
        self.text.clear();
        self.text.push(text);
    }

    /// Returns whether the place has the reply to the sender's request with this number.
    pub(crate) fn is_reply_to(&self, sender: &[u8], number: u32) -> bool
        ensures value { result ≡ is_reply_to sender.now number self.now }
    {
        self.number == number && is_same_name(self.sender.as_slice(), sender)
    }

    /// Returns whether the reply went to this sender and has a number from `first` to `last`.
    pub(crate) fn is_in_range(&self, sender: &[u8], first: u32, last: u32) -> bool
        ensures value { result ≡ is_in_range sender.now first last self.now }
    {
        let is_named = first <= self.number && self.number <= last;
        is_named && is_same_name(self.sender.as_slice(), sender)
    }

    /// Returns the name of the sender.
    pub(crate) fn sender(&self) -> &[u8]
        ensures value { result.now ≡ self.now.sender }
    {
        self.sender.as_slice()
    }

    /// Returns the number of the request.
    pub(crate) fn number(&self) -> u32
        ensures value { result ≡ self.now.number }
    {
        self.number
    }

    /// Returns the text of the reply.
    pub(crate) fn text(&self) -> &[u8]
        ensures value { result.now ≡ self.now.text }
        ensures fits { length result.now ≤ REPLY_LIMIT }
    {
        self.text.as_slice()
    }
}
