//! Tests of who hears whom in one context.

use crate::equality::assert_right;
use mg_topology::mask::{self, Mask};
use mg_topology::{Association, Overlap, SEATS, Topology, Triple};

/// Triples of the first seat with the second seat or with all seats, and of all seats with all.
const ISOLATE: Triple = Triple {
    first: 0b01,
    second: 0b10,
    association: Association::Isolate,
};

const ONEWAY: Triple = Triple {
    first: 0b01,
    second: 0b10,
    association: Association::Oneway,
};

const ALL_TO_ONE: Triple = Triple {
    first: mask::FULL,
    second: 0b01,
    association: Association::Oneway,
};

const ISOLATE_FROM_ALL: Triple = Triple {
    first: 0b01,
    second: mask::FULL,
    association: Association::Isolate,
};

const ALL_TO_ALL: Triple = Triple {
    first: mask::FULL,
    second: mask::FULL,
    association: Association::Bothway,
};

/// A call on a topology with its outcome, or a check of the topology after the previous calls.
#[derive(Clone, Copy)]
enum Action<'a> {
    /// A member takes this free seat.
    Enter(usize),
    /// The member in this seat leaves.
    Leave(usize),
    Apply(&'a [Triple], Result<(), Overlap>),
    /// These seats are held.
    Held(Mask),
    Holds(usize, bool),
    /// The listener in this seat hears the members in these seats.
    Talkers(usize, Mask),
    /// Whether a talker is heard by a listener.
    Hears(usize, usize, bool),
}

/// The cases: calls on new topologies.
const CASES: [(&str, &[Action<'static>]); 4] = [
    (
        "the last of two triples wins",
        &[
            Action::Enter(0),
            Action::Enter(1),
            Action::Apply(&[ISOLATE, ONEWAY], Ok(())),
            Action::Hears(0, 1, true),
            Action::Hears(1, 0, false),
            Action::Apply(&[ONEWAY, ISOLATE], Ok(())),
            Action::Hears(0, 1, false),
            Action::Hears(1, 0, false),
            // A seat may be in both sets of a Bothway triple.
            Action::Apply(&[ALL_TO_ALL], Ok(())),
            Action::Hears(0, 1, true),
            Action::Hears(1, 0, true),
            Action::Hears(0, 0, false),
        ],
    ),
    (
        "if sets overlap, no triple is applied",
        &[
            Action::Enter(0),
            Action::Enter(1),
            Action::Apply(&[ISOLATE, ALL_TO_ONE], Err(Overlap)),
            Action::Talkers(0, 0b10),
            Action::Talkers(1, 0b01),
        ],
    ),
    (
        "a newcomer on a used seat hears all",
        &[
            Action::Enter(0),
            Action::Enter(1),
            Action::Enter(2),
            Action::Apply(&[ISOLATE_FROM_ALL], Ok(())),
            Action::Talkers(0, mask::EMPTY),
            Action::Talkers(1, 0b100),
            Action::Talkers(2, 0b010),
            Action::Holds(0, true),
            Action::Leave(0),
            Action::Held(0b110),
            Action::Holds(0, false),
            Action::Talkers(0, mask::EMPTY),
            Action::Talkers(1, 0b100),
            Action::Enter(0),
            Action::Talkers(0, 0b110),
            Action::Talkers(1, 0b101),
            Action::Talkers(2, 0b011),
        ],
    ),
    (
        "seats end with the bits of a mask",
        &[
            Action::Enter(SEATS - 1),
            Action::Holds(SEATS - 1, true),
            Action::Holds(SEATS, false),
            Action::Hears(SEATS, SEATS - 1, false),
            Action::Hears(SEATS - 1, SEATS, false),
            Action::Talkers(SEATS, mask::EMPTY),
        ],
    ),
];

/// Takes a seat, if it exists and is free. Returns whether it could be taken.
fn enter(topology: &mut Topology, seat: usize) -> bool {
    if seat >= SEATS || topology.holds(seat) {
        return false;
    }
    topology.enter(seat);
    true
}

/// Leaves a seat, if it is held. Returns whether it was.
fn leave(topology: &mut Topology, seat: usize) -> bool {
    if !topology.holds(seat) {
        return false;
    }
    topology.leave(seat);
    true
}

/// Carries out an action. Returns whether it has the given outcome.
fn does(topology: &mut Topology, action: &Action<'_>) -> bool {
    match *action {
        Action::Enter(seat) => enter(topology, seat),
        Action::Leave(seat) => leave(topology, seat),
        Action::Apply(triples, outcome) => topology.apply(triples) == outcome,
        Action::Held(mask) => topology.held() == mask,
        Action::Holds(seat, is_held) => topology.holds(seat) == is_held,
        Action::Talkers(seat, mask) => topology.talkers(seat) == mask,
        Action::Hears(talker, listener, is_heard) => topology.hears(talker, listener) == is_heard,
    }
}

/// Returns the number of the first action without the given outcome, or `None` if there is no such action.
fn first_wrong(actions: &[Action<'_>]) -> Option<usize> {
    let mut topology = Topology::new();
    for at in 0..actions.len() {
        if !does(&mut topology, &actions[at]) {
            return Some(at);
        }
    }
    None
}

#[test]
fn keeps_triples(rt: HostRuntime) {
    for (name, actions) in &CASES {
        assert_right(&rt, name, first_wrong(actions));
    }
    assert!(rt; !Topology::default().holds(0));
}

fn has_seats() -> bool {
    mask::of_seat(3) == 0b1000
        && mask::has_seat(0b1000, 3)
        && mask::with_seat(0b0001, 3) == 0b1001
        && mask::without_seat(0b1001, 3) == 0b0001
        && mask::set_seat(0b1001, 3, false) == 0b0001
}

fn combines() -> bool {
    mask::union(0b0011, 0b0110) == 0b0111
        && mask::intersection(0b0011, 0b0110) == 0b0010
        && mask::difference(0b0011, 0b0110) == 0b0001
        && mask::is_disjoint(0b0011, 0b1100)
        && mask::first_seat(0b1100) == Some(2)
        && mask::first_seat(mask::EMPTY).is_none()
}

/// Returns whether an iteration over a mask returns each seat in ascending order.
fn walks() -> bool {
    let mut seats = mask::seats(0b1000_0110);
    seats.next() == Some(1)
        && seats.next() == Some(2)
        && seats.next() == Some(7)
        && seats.next().is_none()
        && mask::seats(mask::FULL).count() == 64
        && mask::seats(mask::EMPTY).count() == 0
}

#[test]
fn masks(rt: HostRuntime) {
    assert!(rt; has_seats());
    assert!(rt; combines());
    assert!(rt; walks());
}
