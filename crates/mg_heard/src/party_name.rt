ghost use Rattle.std.specs.Prelude.{◌≡◌, ◌≤◌};
ghost use Rattle.mg_bytes.specs.Bytes.{appended};
ghost use Rattle.mg_heard.specs.Query.{is_named, party_name_of, party_name_text};

use crate::line::{push_name, push_peer};
use mg_bytes::{Bytes, write_address};
use mg_core::{Peer, peer_of};
use mg_words::{address_of, number_of};

/// A key that selects terminations: a number, an address, or an address with a port.
#[derive(Clone, Copy, Debug, PartialEq, Eq)]
pub enum PartyName {
    /// The termination with this number, as in `RTP/7`.
    Termination(u32),
    /// Each termination whose Remote has this address.
    Address([u8; 4]),
    /// Each termination whose Remote has this address and port.
    Remote(Peer),
}

impl PartyName {
    /// Parses a termination such as `RTP/7`, an IPv4 address, or an IPv4 address with a port. Returns `None` if the
    /// text is anything else.
    pub fn of(text: &[u8]) -> Option<PartyName>
        ensures value { result ≡ party_name_of text.now }
    {
        if let Some(digits) = text.strip_prefix(b"RTP/".as_slice()) {
            return Some(PartyName::Termination(number_of(digits)?));
        }
        if let Some(peer) = peer_of(text) {
            return Some(PartyName::Remote(peer));
        }
        Some(PartyName::Address(address_of(text)?))
    }

    /// Returns whether the key applies to a termination with this number and this Remote.
    pub fn names(&self, number: u32, at: Option<Peer>) -> bool
        ensures value { result ≡ is_named self.now number at }
    {
        match (self, at) {
            (PartyName::Termination(own), _) => *own == number,
            (PartyName::Address(address), Some(peer)) => peer.address == *address,
            (PartyName::Remote(remote), Some(peer)) => peer == *remote,
            (_, None) => false,
        }
    }

    /// Writes the key, in at most 32 bytes. [`of`](PartyName::of) reads it.
    pub fn write(&self, out: &mut Bytes)
        requires room { 32 ≤ out.old.room }
        ensures value { out.new ≡ appended out.old (party_name_text self.now) }
    {
        match self {
            PartyName::Termination(number) => push_name(*number, out),
            PartyName::Address(address) => write_address(*address, out),
            PartyName::Remote(peer) => push_peer(*peer, out),
        }
    }
}
