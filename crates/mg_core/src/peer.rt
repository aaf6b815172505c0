ghost use Rattle.std.specs.Prelude.{◌≡◌};
ghost use Rattle.mg_core.specs.Peer.{peer_of};

use mg_engine::Peer;
use mg_words::{address_of, cut, port_of};

/// Parses a peer: an IPv4 address, a colon and a port. Returns `None` if the text is anything else.
#[tactic(auto, unfolding(crate::specs::Peer::peer_of))]
pub fn peer_of(text: &[u8]) -> Option<Peer>
    ensures value { result ≡ peer_of text.now }
{
    let (address, port) = cut(b':', text)?;
    let address = address_of(address)?;
    let port = port_of(port)?;
    Some(Peer { address, port })
}
