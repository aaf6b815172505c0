//! Compares the packets that two gateways send in a tick.

ghost use Rattle.std.specs.Prelude.{◌≡◌, ◌≤◌, ◌==◌, [], find, length, not};
ghost use Rattle.std.specs.Option.{option_map_or};
ghost use Rattle.std.specs.Str.{bytes_eq};
ghost use Rattle.mg_rooms.specs.Consistent.{IsConsistent};
ghost use Rattle.mg_core.specs.World.{World, packets_of, world_after_tick};
ghost use Rattle.mg_core.specs.aids.Stands.{StandsFor};
ghost use Rattle.mg_heard.specs.aids.Parties.{IsParty};
ghost use Rattle.mg_audible.specs.Audible.{audible_flows, bytes_from};

use arrayvec::ArrayVec;
use mg_core::{Core, Datagram, TERMINATION_LIMIT};
use mg_heard::{OpenFlow, Party};

/// The flows that are audible in a tick, in order of listeners.
pub(crate) type AudibleFlows = ArrayVec<OpenFlow, TERMINATION_LIMIT>;

/// Returns the first packet from a port.
fn packet_from(port: u16, packets: &[Datagram]) -> Option<Datagram>
    ensures value { result ≡ find (λ d. d.from == port) packets.now }
{
    packets.iter().copied().find(|packet| packet.from == port)
}

/// Returns the bytes of a packet, or no bytes if `packet` is `None`.
fn bytes_of(packet: &Option<Datagram>) -> &[u8]
    ensures value { result.now ≡ option_map_or (λ d. d.bytes) packet.now [] }
{
    match packet {
        Some(packet) => packet.bytes.as_slice(),
        None => &[],
    }
}

/// Returns whether the packets from a port differ between two outboxes.
fn differ(port: u16, whole: &[Datagram], without: &[Datagram]) -> bool
    ensures value { result ≡ not (bytes_eq (bytes_from port whole.now) (bytes_from port without.now)) }
{
    let first = packet_from(port, whole);
    let second = packet_from(port, without);
    bytes_of(&first) != bytes_of(&second)
}

/// Returns the description of the termination with this number for an interval.
fn party_named(core: &Core, number: u32) -> Party
    ensures number { result.number ≡ number }
    ensures value { (w : World) → StandsFor core.now.state w → IsParty w.gateway result }
{
    match core.rooms().record(number) {
        Some(termination) => Party::of(&termination),
        None => Party {
            number,
            context: 0,
            at: None,
        },
    }
}

/// Returns the audible flows of the tick that two cores have just run: one flow for each listener to whom they sent
/// different bytes.
pub(crate) fn audible_flows(talker: u32, whole: &Core, without: &Core) -> AudibleFlows
    ensures few { length result.items ≤ TERMINATION_LIMIT }
    ensures consistent { IsConsistent whole.now.state.engine.rooms }
    ensures value { (v w : World) → StandsFor whole.now.state (world_after_tick v) →
        whole.now.outbox ≡ packets_of v → without.now.outbox ≡ packets_of w →
        result.items ≡ audible_flows talker v w }
{
    let party = party_named(whole, talker);
    let mut flows = ArrayVec::new();
    for place in 0..whole.terminations() {
        let listener = whole.termination(place);
        if differ(whole.port(listener.slot), whole.outbox(), without.outbox()) {
            let _ = flows.try_push(party.flow_to(&Party::of(&listener)));
        }
    }
    flows
}
