ghost use Rattle.std.specs.Prelude.{◌≡◌, find};
ghost use Rattle.mg_sdp.specs.Choice.{is_own_address, is_own_port, is_served_local, is_served_remote, offers_of, local_choice, remote_choice};

use crate::offer::Offer;
use crate::sessions::Sessions;
use mg_g711::Law;

/// The address, port and law that were chosen from the alternatives.
#[derive(Clone, Copy, Debug, PartialEq, Eq)]
pub struct Chosen {
    /// The IPv4 address.
    pub address: [u8; 4],
    /// The UDP port for RTP.
    pub port: u16,
    /// The law of G.711.
    pub law: Law,
}

/// Returns whether an address is the gateway's own or is left to the gateway.
fn is_own_address(asked: Option<[u8; 4]>, own: [u8; 4]) -> bool
    ensures value { result ≡ is_own_address own asked }
{
    match asked {
        Some(address) => address == own,
        None => true,
    }
}

/// Returns whether a port is the termination's own or is left to the gateway.
fn is_own_port(asked: Option<u16>, own: u16) -> bool
    ensures value { result ≡ is_own_port own asked }
{
    asked.is_none_or(|port| port == own)
}

/// Returns whether the gateway, with this address and port, can receive what is offered.
fn is_served_local(offer: &Offer, address: [u8; 4], port: u16) -> bool
    ensures value { result ≡ is_served_local address port offer.now }
{
    is_own_address(offer.address, address) && is_own_port(offer.port, port)
}

/// Returns whether the gateway can send packets as offered.
fn is_served_remote(offer: &Offer) -> bool
    ensures value { result ≡ is_served_remote offer.now }
{
    offer.port.is_some_and(|port| port != 0) && offer.address.is_some() && offer.law.is_some()
}

/// Returns the first offer whose media the gateway can receive, or `None` if there is no such offer.
fn first_local(offers: &[Option<Offer>], address: [u8; 4], port: u16) -> Option<Offer>
    ensures value { result ≡ find (is_served_local address port) (offers_of offers.now) }
{
    offers
        .iter()
        .filter_map(|offer| *offer)
        .find(|offer| is_served_local(offer, address, port))
}

/// Returns the first offer whose media the gateway can send, or `None` if there is no such offer.
fn first_remote(offers: &[Option<Offer>]) -> Option<Offer>
    ensures value { result ≡ find is_served_remote (offers_of offers.now) }
{
    offers
        .iter()
        .filter_map(|offer| *offer)
        .find(|offer| is_served_remote(offer))
}

/// Chooses an alternative of a Local: the first supported one that allows the gateway's address and the termination's
/// port.
///
/// If the law is left to the gateway, it chooses mu-law. Returns `None` if no alternative is acceptable.
pub fn choose(sessions: &Sessions, address: [u8; 4], port: u16) -> Option<Chosen>
    ensures value { result ≡ local_choice address port sessions.now }
{
    let offer = first_local(sessions.offers.as_slice(), address, port)?;
    let law = offer.law.unwrap_or(Law::Mu);
    Some(Chosen { address, port, law })
}

/// Chooses an alternative of a Remote: the first supported one with an address, a port other than 0, and a law.
///
/// Returns `None` if no alternative is acceptable.
pub fn choose_remote(sessions: &Sessions) -> Option<Chosen>
    ensures value { result ≡ remote_choice sessions.now }
{
    let offer = first_remote(sessions.offers.as_slice())?;
    Some(Chosen {
        address: offer.address?,
        port: offer.port?,
        law: offer.law?,
    })
}
