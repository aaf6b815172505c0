//! Stores an interval for each flow, one after another.

ghost use Rattle.std.specs.Prelude.{◌≡◌, ◌≤◌, ◌<◌, ◌+◌, ◌++◌, ◌∷◌, [], length, map, take};
ghost use Rattle.mg_core.specs.World.{World};
ghost use Rattle.mg_core.specs.aids.Stands.{StandsFor};
ghost use Rattle.mg_heard.specs.OpenFlows.{open_flows};
ghost use Rattle.mg_heard.specs.aids.Hearers.{flows_heard, seats_of};
ghost use Rattle.mg_heard.specs.aids.Opening.{beginning_at};

use crate::hearer::{Hearer, hearers_of};
use crate::moment::Moment;
use crate::open_flow::OpenFlow;
use crate::open_interval::OpenInterval;
use mg_core::{Core, TERMINATION_LIMIT};
use mg_words::MEMBER_LIMIT;

/// An upper limit for the number of open flows: each termination hears at most [`MEMBER_LIMIT`] others.
pub(crate) const FLOWS: usize = TERMINATION_LIMIT * MEMBER_LIMIT;

/// Fills the first places with an interval for each flow that is open in a core. Returns how many intervals were
/// stored.
pub(crate) fn fill_places(places: &mut [OpenInterval], core: &Core, first: Moment) -> usize
    requires places { length places.old ≡ FLOWS }
    ensures within { result ≤ FLOWS }
    ensures value { (w : World) → StandsFor core.now.state w →
        take result places.new ≡ map (beginning_at first) (open_flows w.gateway) }
{
    let found = hearers_of(core);
    let hearers = found.as_slice();
    let mut count = 0;
    for listener in hearers {
        count = push_flows(places, count, hearers, listener, first);
    }
    count
}

/// Stores an interval for each flow to a listener, after the `count` places in use, as long as there are places.
/// Returns how many places are then in use.
pub(crate) fn push_flows(
    places: &mut [OpenInterval],
    mut count: usize,
    hearers: &[Hearer],
    listener: &Hearer,
    first: Moment,
) -> usize
    requires within { count ≤ length places.old }
    ensures within { result ≤ length places.old }
    ensures value { count + length (flows_heard (seats_of hearers.now) listener.now) ≤ length places.old →
        take result places.new ≡ take count places.old
        ++ map (beginning_at first) (flows_heard (seats_of hearers.now) listener.now) }
{
    for hearer in hearers {
        if listener.hears(&hearer.seated) {
            let flow = hearer.seated.party.flow_to(&listener.seated.party);
            count = put(places, count, OpenInterval { flow, first });
        }
    }
    count
}

/// Stores an interval at a place, and returns the next place. If there is no such place, stores nothing and returns
/// `place`.
fn put(places: &mut [OpenInterval], place: usize, interval: OpenInterval) -> usize
    requires within { place ≤ length places.old }
    ensures within { result ≤ length places.old }
    ensures value { place < length places.old → (result ≡ place + 1)
        × (take result places.new ≡ take place places.old ++ interval ∷ []) }
{
    if place == places.len() {
        return place;
    }
    places[place] = interval;
    place + 1
}

/// Fills the first places with one interval per flow.
pub(crate) fn put_flows(places: &mut [OpenInterval], flows: &[OpenFlow], first: Moment)
    requires room { length flows.now ≤ length places.old }
    ensures value { take (length flows.now) places.new ≡ map (beginning_at first) flows.now }
{
    for (place, flow) in flows.iter().enumerate() {
        places[place] = OpenInterval { flow: *flow, first };
    }
}
