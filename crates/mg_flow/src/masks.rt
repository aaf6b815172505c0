#![tactic(auto, using(crate::proofs::SeatLemmas::seat_rules))]

ghost use Rattle.std.specs.Prelude.{◌≡◌, ℕ, ◌<◌};
ghost use Rattle.mg_topology.specs.Mask.{has_seat};
ghost use Rattle.mg_flow.specs.aids.RoomFlows.{flows_to, is_blocked_for};

use mg_topology::Topology;
use mg_topology::mask::{self, Mask, SEATS};

/// Two sets of talkers for each listener in a room, indexed by the listener's seat.
#[derive(Debug, Drop)]
pub(crate) struct Masks {
    /// The talkers whose speech flows to the listener.
    pub(crate) open: [Mask; SEATS],
    /// The talkers that the last word mutes for the listener.
    pub(crate) silenced: [Mask; SEATS],
}

impl Masks {
    ghost use Rattle.mg_flow.specs.aids.Table.{RoomFlows};
    ghost use Rattle.mg_flow.specs.aids.RoomFlows.{AreMasks};

    /// Derives the masks of a room from its topology, and from who talks and who listens.
    pub(crate) fn of(topology: &Topology, talks: Mask, listens: Mask) -> Masks
        ensures { let room : RoomFlows =
            record { topology = topology.now; talks = talks; listens = listens } in
            AreMasks room result.open result.silenced }
    {
        let mut open = [mask::EMPTY; SEATS];
        let mut silenced = [mask::EMPTY; SEATS];
        for listener in 0..SEATS {
            open[listener] = open_row(topology, talks, listens, listener);
            silenced[listener] = silenced_row(topology, talks, listener);
        }
        Masks { open, silenced }
    }
}

/// Returns the talkers whose speech flows to the listener.
fn open_row(topology: &Topology, talks: Mask, listens: Mask, listener: usize) -> Mask
    requires { listener < SEATS }
    ensures { (talker : ℕ) →
        has_seat result talker ≡ flows_to topology.now talks listens talker listener }
{
    if mask::has_seat(listens, listener) {
        mask::intersection(topology.talkers(listener), talks)
    } else {
        mask::EMPTY
    }
}

/// Returns the talkers, other than the listener itself, that the last word mutes for this listener.
fn silenced_row(topology: &Topology, talks: Mask, listener: usize) -> Mask
    requires { listener < SEATS }
    ensures { (talker : ℕ) →
        has_seat result talker ≡ is_blocked_for topology.now talks talker listener }
{
    if topology.holds(listener) {
        let talking = mask::intersection(topology.held(), talks);
        let others = mask::without_seat(talking, listener);
        mask::difference(others, topology.talkers(listener))
    } else {
        mask::EMPTY
    }
}
