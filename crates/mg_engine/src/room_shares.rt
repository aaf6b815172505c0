ghost use Rattle.std.specs.Prelude.{◌≡◌, [], ◌∷◌, ◌++◌, Contains, IfSome, length, nat_lt, if◌then◌else◌};
ghost use Rattle.mg_words.specs.Limits.{member_limit};

use crate::share::Share;
use arrayvec::ArrayVec;
use mg_g711::Law;
use mg_topology::mask::Mask;
use mg_words::MEMBER_LIMIT;
use std::marker::Model;

/// How many of a room's newest packets are searched.
const NEWEST: usize = 8;

/// The packets of one room whose payloads other members can share: at most as many as a context can have members.
#[derive(Drop)]
pub struct RoomShares {
    shares: ArrayVec<Share, MEMBER_LIMIT>,
}

impl Model for RoomShares {
    ghost use Rattle.std.specs.Prelude.{List};
    ghost use Rattle.mg_engine.specs.declared.share.Share.{Share};

    ghost Value = { List Share };

    ghost view = { λ room. room.shares.items };
}

impl RoomShares {
    /// Creates an empty list of shares.
    pub fn new() -> Self
        ensures value { result ≡ [] }
    {
        RoomShares {
            shares: ArrayVec::new(),
        }
    }

    /// Removes all shares.
    pub fn clear(&mut self)
        ensures value { self.new ≡ [] }
    {
        self.shares.clear();
    }

    /// Finds a recent packet that mixes exactly these talkers and uses this law. Returns `None` if no such packet is
    /// found.
    ///
    /// If everybody in a room talks, each member usually hears a different sum. The room then has a packet for each
    /// member, and searching all of them for every member would be quadratic. Members that only listen usually find
    /// their sum among the newest packets.
    pub fn find(&self, talkers: Mask, law: Law) -> Option<u8>
        ensures found { IfSome result
            (λ packet. Contains self.now (record { talkers = talkers; law = law; packet = packet })) }
    {
        let shares = self.shares.as_slice();
        let older = shares.len().saturating_sub(NEWEST);
        packet_among(&shares[older..], talkers, law)
    }

    /// Adds a share, unless the list is full.
    pub fn put(&mut self, share: Share)
        ensures value { self.new ≡ (if nat_lt (length self.old) member_limit then self.old ++ share ∷ [] else
            self.old) }
    {
        if !self.shares.is_full() {
            self.shares.push(share);
        }
    }
}

/// Returns the first packet that mixes exactly these talkers and uses this law, or `None` if no such packet is found.
fn packet_among(shares: &[Share], talkers: Mask, law: Law) -> Option<u8>
    ensures found { IfSome result (λ packet. Contains shares.now
        (record { talkers = talkers; law = law; packet = packet })) }
{
    for share in shares {
        if share.talkers == talkers && share.law == law {
            return Some(share.packet);
        }
    }
    None
}
