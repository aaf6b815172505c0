ghost use Rattle.std.specs.Prelude.{◌≡◌, ◌+◌, ◌-◌, ◌<◌, ◌≤◌, [], length, take, drop, Some, None, MatchOption, IfSome, IfOk};
ghost use Rattle.std.specs.List.{slice_get};
ghost use Rattle.mg_words.specs.Limits.{kept_limit};
ghost use Rattle.mg_kept.specs.KeptReplies.{AreKept, KeptReply, kept_text, with_reply, without_range};

use crate::entry::Entry;
use mg_words::{KEPT_LIMIT, REPLY_LIMIT, SENDER_LIMIT};
use std::alloc::{AllocError, Global};
use std::marker::Model;

/// The replies that are kept to answer retransmissions. In contracts, they appear as a list, oldest first.
#[derive(Drop)]
pub struct Kept {
    /// A place for each reply that may be kept. The first `len` places hold replies, oldest first.
    places: Vec<Entry>,
    len: usize,
}

impl Model for Kept {
    ghost use Rattle.std.specs.Prelude.{List, take};
    ghost use Rattle.mg_kept.specs.KeptReplies.{KeptReply};
    ghost use Rattle.mg_kept.specs.aids.Places.{AreFilledUpTo};

    ghost Value = { List KeptReply };

    ghost view = { λ k. take k.len k.places.items };

    ghost invariant = { λ k. AreFilledUpTo k.places.items k.len };
}

impl Kept {
    /// Creates an empty store. Fails only if an allocation fails. No other call allocates.
    pub fn new(alloc: Global) -> Result<Self, AllocError>
        ensures value { IfOk result (λ kept. kept ≡ []) }
    {
        let mut places = Vec::with_capacity(alloc, KEPT_LIMIT)?;
        for _ in 0..KEPT_LIMIT {
            places.push(Entry::new(alloc)?)?;
        }
        Ok(Kept { places, len: 0 })
    }

    /// Returns the kept reply to the sender's request with this number, or `None` if no such reply is kept.
    pub fn find(&self, sender: &[u8], number: u32) -> Option<&[u8]>
        ensures value { MatchOption result (kept_text self.now sender.now number ≡ None)
            (λ text. kept_text self.now sender.now number ≡ Some text.now) }
        ensures fits { IfSome result (λ text. length text.now ≤ REPLY_LIMIT) }
    {
        for place in &self.places[..self.len] {
            if place.is_reply_to(sender, number) {
                return Some(place.text());
            }
        }
        None
    }

    /// Returns the number of kept replies.
    pub fn len(&self) -> usize
        ensures value { result ≡ length self.now }
        ensures few { result ≤ KEPT_LIMIT }
    {
        self.len
    }

    /// Returns the sender of a kept reply's request. Replies are counted from 0, oldest first.
    pub fn sender(&self, place: usize) -> &[u8]
        requires there { place < length self.now }
        ensures value { (reply : KeptReply) → slice_get self.now place ≡ Some reply → result.now ≡ reply.sender }
    {
        self.places[place].sender()
    }

    /// Returns the number of a kept reply's request.
    pub fn number(&self, place: usize) -> u32
        requires there { place < length self.now }
        ensures value { (reply : KeptReply) → slice_get self.now place ≡ Some reply → result ≡ reply.number }
    {
        self.places[place].number()
    }

    /// Returns the text of a kept reply.
    pub fn text(&self, place: usize) -> &[u8]
        requires there { place < length self.now }
        ensures value { (reply : KeptReply) → slice_get self.now place ≡ Some reply → result.now ≡ reply.text }
    {
        self.places[place].text()
    }

    /// Keeps a reply as the newest reply. Its request must not have a kept reply yet.
    ///
    /// If [`KEPT_LIMIT`] replies are kept already, the oldest is dropped.
    pub fn keep(&mut self, sender: &[u8], number: u32, text: &[u8])
        requires is_new { kept_text self.old sender.now number ≡ None }
        requires short { length sender.now ≤ SENDER_LIMIT }
        requires fits { length text.now ≤ REPLY_LIMIT }
        ensures value { self.new ≡
            with_reply (record { sender = sender.now; number = number; text = text.now }) self.old }
    {
        self.make_room();
        self.places[self.len].set(sender, number, text);
        self.len += 1;
    }

    /// Drops the sender's replies with the numbers from `first` to `last`.
    ///
    /// If `first` exceeds `last`, no reply is dropped.
    pub fn ack(&mut self, sender: &[u8], first: u32, last: u32)
        ensures value { self.new ≡ without_range sender.now first last self.old }
    {
        self.len = drop_range(&mut self.places, self.len, sender, first, last);
    }

    /// Drops the oldest reply if there is no room for another. Its place is reused next.
    fn make_room(&mut self)
        ensures value { self.new ≡ drop (length self.old + 1 - kept_limit) self.old }
        ensures room { length self.new < kept_limit }
    {
        if self.len < KEPT_LIMIT {
            return;
        }
        self.places.rotate_left(1);
        self.len -= 1;
    }

    /// Exposes the invariant of the kept replies to a proof. Has no effect.
    pub(crate) fn assert_invariant(&self)
        ensures { AreKept self.now }
    {
        let _len = self.len;
    }
}

/// Removes the sender's replies with numbers from `first` to `last` from the first `len` places.
///
/// The other replies move to the front, in order. Returns how many replies remain.
fn drop_range(places: &mut [Entry], len: usize, sender: &[u8], first: u32, last: u32) -> usize
    requires { len ≤ length places.old }
    ensures front { take result places.new ≡ without_range sender.now first last (take len places.old) }
    ensures within { result ≤ len }
{
    let mut stay = 0;
    for i in 0..len {
        if !places[i].is_in_range(sender, first, last) {
            places.swap(stay, i);
            stay += 1;
        }
    }
    stay
}
