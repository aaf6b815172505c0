ghost use Rattle.std.specs.Prelude.{◌≡◌, ◌<◌, [], replicate, Contains, IfOk, IfSome, length};
ghost use Rattle.mg_words.specs.Limits.{context_limit};
ghost use Rattle.mg_engine.specs.aids.Shares.{shares_in, with_share};

use crate::room_shares::RoomShares;
use crate::share::Share;
use mg_g711::Law;
use mg_topology::mask::Mask;
use mg_words::CONTEXT_LIMIT;
use std::alloc::{AllocError, Global};
use std::marker::Model;

/// The packets of this tick whose payloads can be shared, grouped by the listener's room.
#[derive(Drop)]
pub struct Shares {
    rooms: Vec<RoomShares>,
}

impl Model for Shares {
    ghost use Rattle.std.specs.Prelude.{◌≡◌, List, length};
    ghost use Rattle.mg_words.specs.Limits.{context_limit};
    ghost use Rattle.mg_engine.specs.declared.share.Share.{Share};

    ghost Value = { List (List Share) };

    ghost view = { λ shares. shares.rooms.items };

    ghost invariant = { λ shares. length shares.rooms.items ≡ context_limit };
}

impl Shares {
    /// Creates an empty table of shares. Fails only if an allocation fails.
    pub fn new(alloc: Global) -> Result<Self, AllocError>
        ensures value { IfOk result (λ shares. shares ≡ replicate context_limit []) }
    {
        let mut rooms = Vec::new(alloc);
        for _ in 0..CONTEXT_LIMIT {
            rooms.push(RoomShares::new())?;
        }
        Ok(Shares { rooms })
    }

    /// Removes all shares.
    pub fn clear(&mut self)
        ensures value { self.new ≡ replicate context_limit [] }
    {
        clear_all(&mut self.rooms);
    }

    /// Finds a recent packet of this room that mixes exactly these talkers and uses this law. Returns `None` if no such
    /// packet is found.
    pub fn find(&self, room: u8, talkers: Mask, law: Law) -> Option<u8>
        requires room { room < context_limit }
        ensures found { IfSome result (λ packet. Contains (shares_in self.now room)
            (record { talkers = talkers; law = law; packet = packet })) }
    {
        self.rooms[usize::from(room)].find(talkers, law)
    }

    /// Adds a share to a room, unless the room's list is full.
    pub fn put(&mut self, room: u8, share: Share)
        requires room { room < context_limit }
        ensures value { self.new ≡ with_share self.old room share }
        ensures there { room < length self.old }
    {
        self.rooms[usize::from(room)].put(share);
    }
}

/// Removes the shares of all rooms.
fn clear_all(rooms: &mut Vec<RoomShares>)
    ensures value { rooms.new.items ≡ replicate (length rooms.old.items) [] }
{
    for i in 0..rooms.len() {
        rooms[i].clear();
    }
}
