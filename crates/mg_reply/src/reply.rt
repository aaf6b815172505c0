ghost use Rattle.std.specs.Prelude.{◌≡◌, [], true, false, IfOk};
ghost use Rattle.mg_reply.specs.Reply.{after_put, new_reply, is_action};
ghost use Rattle.mg_reply.specs.aids.Whole.{is_whole, IsWhole};

use crate::entry_kind::EntryKind;
use crate::item::Item;
use std::alloc::{AllocError, Global};
use std::marker::Model;

/// The number of items that a reply has room for. The end of an action takes no room if the action has items.
pub const ITEM_LIMIT: usize = 1600;

/// A reply that is collected item by item, in memory that was allocated at the start.
#[derive(Drop)]
pub struct Reply {
    number: u32,
    items: Vec<Item>,
    room: usize,
    has_pending: bool,
    is_long: bool,
}

impl Model for Reply {
    ghost use Rattle.mg_reply.specs.Reply.{Answered};
    ghost use Rattle.mg_reply.specs.aids.Room.{IsReply};

    ghost Value = { Answered };

    ghost view = { λ r. record {
      number = r.number;
      items = r.items.items;
      room = r.room;
      has_pending = r.has_pending;
      is_long = r.is_long;
    } };

    ghost use Rattle.std.specs.Prelude.{vec_capacity};

    ghost invariant = { λ r. IsReply r.number r.items.items (vec_capacity r.items) r.room r.has_pending };
}

impl Reply {
    /// Creates an empty reply to transaction 0. Fails only if the allocation fails. No other call allocates.
    pub fn new(alloc: Global) -> Result<Self, AllocError>
        ensures value { IfOk result (λ reply. reply ≡ new_reply 0) }
    {
        Ok(Reply {
            number: 0,
            items: Vec::with_capacity(alloc, 2 * ITEM_LIMIT)?,
            room: ITEM_LIMIT,
            has_pending: false,
            is_long: false,
        })
    }

    /// Empties the reply, and starts the reply to a transaction.
    pub fn start(&mut self, number: u32)
        ensures value { self.new ≡ new_reply number }
    {
        self.number = number;
        self.items.clear();
        self.room = ITEM_LIMIT;
        self.has_pending = false;
        self.is_long = false;
    }

    /// Appends an item. If there is no room for the item, it is dropped and the reply is marked as too long.
    #[tactic(auto, using(crate::proofs::ReplyLemmas::last_items))]
    pub fn put(&mut self, item: Item)
        ensures value { self.new ≡ after_put self.old item }
        ensures ended { is_action item ≡ true → IsWhole self.new }
    {
        let is_action = matches!(item, Item::Action(_));
        let is_free = is_action && self.has_pending;
        if !is_free {
            if self.room == 0 {
                self.is_long = true;
                return;
            }
            self.room -= 1;
        }
        self.items.push_reserved(item);
        self.has_pending = !is_action;
    }

    /// Returns the number of the transaction.
    pub fn number(&self) -> u32
        ensures value { result ≡ self.now.number }
    {
        self.number
    }

    /// Returns the items so far.
    pub fn items(&self) -> &[Item]
        ensures value { result.now ≡ self.now.items }
    {
        self.items.as_slice()
    }

    /// Returns whether the reply can be written: it is a single error, or its last action has ended, or it is marked
    /// as too long.
    #[tactic(auto, using(crate::proofs::ReplyLemmas::last_items))]
    pub fn is_whole(&self) -> bool
        ensures value { result ≡ is_whole self.now }
    {
        if self.is_long {
            return true;
        }
        match self.items() {
            [] => false,
            [item] => item.is_of(EntryKind::Faults) || !self.has_pending,
            [_, _, ..] => !self.has_pending,
        }
    }

    /// Returns whether the reply is marked as too long, because there was no room for an item.
    pub fn is_long(&self) -> bool
        ensures value { result ≡ self.now.is_long }
    {
        self.is_long
    }
}
