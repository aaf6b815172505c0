ghost use Rattle.std.specs.Prelude.{◌≡◌, ◌≤◌, [], length, Some, ℕ, List};
ghost use Rattle.mg_words.specs.Limits.{reply_limit};
ghost use Rattle.mg_reply.specs.aids.Draft.{drafted, closed};

use crate::rtp_name::RtpName;
use mg_bytes::Bytes;
use mg_words::REPLY_LIMIT;
use std::marker::Model;
use std::mem;

/// A reply that is being written after existing text. It stops growing once it is too long.
#[derive(Drop)]
pub struct Draft {
    bytes: Bytes,
    start: usize,
    left: usize,
    is_full: bool,
}

impl Model for Draft {
    ghost use Rattle.std.specs.Prelude.{◌+◌, ◌-◌, length, take, drop};
    ghost use Rattle.mg_reply.specs.aids.Draft.{Drafted, text_unless, IsDraft};

    ghost Value = { Drafted };

    ghost view = { λ d. record {
      front = take d.start d.bytes.text;
      room = d.bytes.room + length d.bytes.text - d.start;
      text = text_unless d.is_full (drop d.start d.bytes.text);
    } };

    ghost invariant = { λ d. IsDraft d.bytes d.start d.left d.is_full };
}

impl Draft {
    /// Starts a reply at the end of the text in the buffer. The draft owns the buffer until `close` returns it.
    pub fn begin(bytes: &mut Bytes) -> Self
        requires room { reply_limit ≤ bytes.old.room }
        ensures value { result ≡ record { front = bytes.old.text; room = bytes.old.room; text = Some [] } }
    {
        let empty = Bytes::empty_like(bytes);
        let bytes = mem::replace(bytes, empty);
        let start = bytes.as_slice().len();
        Draft {
            bytes,
            start,
            left: REPLY_LIMIT,
            is_full: false,
        }
    }

    /// Appends a part, unless the reply is already too long or would become too long.
    #[tactic(auto, unfolding(crate::specs::aids::Draft::drafted))]
    pub fn put(&mut self, part: &[u8])
        ensures value { self.new ≡ drafted self.old part.now }
    {
        if self.is_full || part.len() > self.left {
            self.is_full = true;
        } else {
            self.bytes.push(part);
            self.left -= part.len();
        }
    }

    /// Appends a name, unless the reply is already too long or would become too long.
    #[tactic(auto, unfolding(crate::specs::aids::Draft::drafted))]
    pub fn put_name(&mut self, name: &RtpName)
        ensures value { self.new ≡ drafted self.old name.now }
    {
        if self.is_full || name.len() > self.left {
            self.is_full = true;
        } else {
            self.bytes.push_stored(name.padded(), name.len());
            self.left -= name.len();
        }
    }

    /// Returns the buffer, and whether the reply was too long.
    ///
    /// If the reply was too long, the buffer is unchanged. Otherwise, the buffer contains the whole reply.
    pub fn close(self) -> (Bytes, bool)
        ensures value { closed self result.0 result.1 }
    {
        let Draft {
            mut bytes,
            start,
            left: _,
            is_full,
        } = self;
        if is_full {
            bytes.truncate(start);
        }
        (bytes, is_full)
    }
}
