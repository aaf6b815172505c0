//! Tests of the masks of open and silenced talkers.

use crate::equality::assert_right;
use mg_flow::{FlowTable, Place};
use mg_topology::mask::{self, Mask};
use mg_topology::{Association, Overlap, Triple};
use std::alloc::{AllocError, Global};
use std::test::Fail;

/// Places in one room, in the order of entry.
const FIRST: Place = Place { room: 0, seat: 0 };

const SECOND: Place = Place { room: 0, seat: 1 };

const THIRD: Place = Place { room: 0, seat: 2 };

/// A place in another room.
const ELSEWHERE: Place = Place { room: 1, seat: 0 };

/// The last place in the last room.
const LAST: Place = Place { room: 63, seat: 63 };

/// Triples of the first member with the second member, the third member or all members.
const ISOLATE_SECOND: Triple = Triple {
    first: 0b001,
    second: 0b010,
    association: Association::Isolate,
};

const ISOLATE_THIRD: Triple = Triple {
    first: 0b001,
    second: 0b100,
    association: Association::Isolate,
};

const ISOLATE_ALL: Triple = Triple {
    first: 0b001,
    second: 0b111,
    association: Association::Isolate,
};

const ONEWAY_TO_SECOND: Triple = Triple {
    first: 0b001,
    second: 0b010,
    association: Association::Oneway,
};

const ONEWAY_FROM_ALL: Triple = Triple {
    first: mask::FULL,
    second: 0b001,
    association: Association::Oneway,
};

/// A call on a table with its outcome, or a check of the table after the previous calls.
#[derive(Clone, Copy)]
enum Action<'a> {
    /// A member enters at this place. The flags say whether the member talks and whether it listens.
    Enter(Place, bool, bool),
    Leave(Place),
    SetMode(Place, bool, bool),
    /// A call to apply triples in the first room, and its outcome.
    Apply(&'a [Triple], Result<(), Overlap>),
    /// The listener at this place hears the first set of members, and the second set is silenced for it.
    Masks(Place, Mask, Mask),
    /// The room has these members.
    Held(u8, Mask),
    Holds(Place, bool),
    /// Whether a talker is heard by a listener.
    Hears(Place, Place, bool),
}

/// The cases: calls on new tables.
const CASES: [(&str, &[Action<'static>]); 5] = [
    (
        "only talkers are silenced",
        &[
            Action::Enter(FIRST, true, true),
            Action::Enter(SECOND, true, true),
            Action::Enter(THIRD, true, true),
            Action::Apply(&[ISOLATE_THIRD], Ok(())),
            Action::Masks(FIRST, 0b010, 0b100),
            // The third member listens and does not talk.
            Action::SetMode(THIRD, false, true),
            Action::Masks(FIRST, 0b010, 0),
            Action::Masks(SECOND, 0b001, 0),
            Action::Masks(THIRD, 0b010, 0b001),
            // The first member moves to a separate context, and returns.
            Action::Leave(FIRST),
            Action::Enter(ELSEWHERE, true, true),
            Action::Masks(ELSEWHERE, 0, 0),
            Action::Leave(ELSEWHERE),
            Action::Enter(FIRST, true, true),
            Action::Masks(FIRST, 0b010, 0),
            Action::Masks(THIRD, 0b011, 0),
        ],
    ),
    (
        "who comes back hears all",
        &[
            Action::Enter(FIRST, false, false),
            Action::Enter(SECOND, false, false),
            Action::Enter(THIRD, false, false),
            Action::Held(0, 0b111),
            Action::Apply(&[ISOLATE_ALL], Ok(())),
            Action::Hears(FIRST, SECOND, false),
            Action::Leave(FIRST),
            Action::Enter(ELSEWHERE, false, false),
            Action::Held(0, 0b110),
            Action::Held(1, 0b001),
            Action::Hears(SECOND, THIRD, true),
            Action::Hears(SECOND, ELSEWHERE, false),
            Action::Leave(ELSEWHERE),
            Action::Enter(FIRST, false, false),
            Action::Holds(ELSEWHERE, false),
            Action::Hears(FIRST, SECOND, true),
            Action::Hears(SECOND, FIRST, true),
            Action::Hears(FIRST, THIRD, true),
        ],
    ),
    (
        "a newcomer on a used seat hears all",
        &[
            Action::Enter(FIRST, true, true),
            Action::Enter(SECOND, true, true),
            Action::Apply(&[ISOLATE_SECOND], Ok(())),
            Action::Leave(SECOND),
            Action::Masks(FIRST, 0, 0),
            Action::Enter(SECOND, true, true),
            Action::Masks(FIRST, 0b10, 0),
            Action::Masks(SECOND, 0b01, 0),
        ],
    ),
    (
        "the last of two triples wins",
        &[
            Action::Enter(FIRST, true, true),
            Action::Enter(SECOND, true, true),
            // If the two sets of a Oneway triple overlap, no triple of the list is applied.
            Action::Apply(&[ISOLATE_SECOND, ONEWAY_FROM_ALL], Err(Overlap)),
            Action::Masks(FIRST, 0b10, 0),
            Action::Masks(SECOND, 0b01, 0),
            Action::Apply(&[ISOLATE_SECOND, ONEWAY_TO_SECOND], Ok(())),
            Action::Masks(FIRST, 0, 0b10),
            Action::Masks(SECOND, 0b01, 0),
            Action::Apply(&[ONEWAY_TO_SECOND, ISOLATE_SECOND], Ok(())),
            Action::Masks(FIRST, 0, 0b10),
            Action::Masks(SECOND, 0, 0b01),
        ],
    ),
    (
        "places end at the limits",
        &[
            Action::Enter(LAST, true, true),
            Action::Holds(LAST, true),
            Action::Holds(Place { room: 64, seat: 63 }, false),
            Action::Holds(Place { room: 63, seat: 64 }, false),
            Action::Held(64, mask::EMPTY),
            Action::Hears(Place { room: 64, seat: 63 }, LAST, false),
        ],
    ),
];

/// Makes a member enter, if the place is free and within the limits. Returns whether it is.
fn enter(table: &mut FlowTable, place: Place, talks: bool, listens: bool) -> bool {
    if place.room >= 64 || place.seat >= 64 || table.holds(place) {
        return false;
    }
    table.on_enter(place, talks, listens);
    true
}

/// Removes the member at a place, if the place is held. Returns whether it was.
fn leave(table: &mut FlowTable, place: Place) -> bool {
    if !table.holds(place) {
        return false;
    }
    table.on_leave(place);
    true
}

/// Sets the mode of the member at a place, if the place is held. Returns whether it is.
fn set_mode(table: &mut FlowTable, place: Place, talks: bool, listens: bool) -> bool {
    if !table.holds(place) {
        return false;
    }
    table.on_mode(place, talks, listens);
    true
}

/// Returns whether the listener at a place has these masks of open and silenced talkers.
fn has_masks(table: &FlowTable, place: Place, open: Mask, silenced: Mask) -> bool {
    if !table.holds(place) {
        return false;
    }
    *table.open(place) == open && *table.silenced(place) == silenced
}

/// Carries out an action. Returns whether it has the given outcome.
fn does(table: &mut FlowTable, action: &Action<'_>) -> bool {
    match *action {
        Action::Enter(place, talks, listens) => enter(table, place, talks, listens),
        Action::Leave(place) => leave(table, place),
        Action::SetMode(place, talks, listens) => set_mode(table, place, talks, listens),
        Action::Apply(triples, outcome) => table.on_triples(0, triples) == outcome,
        Action::Masks(place, open, silenced) => has_masks(table, place, open, silenced),
        Action::Held(room, mask) => table.held(room) == mask,
        Action::Holds(place, is_held) => table.holds(place) == is_held,
        Action::Hears(talker, listener, is_heard) => table.hears(talker, listener) == is_heard,
    }
}

/// Returns the number of the first action without the given outcome, or `None` if there is no such action.
fn first_wrong(alloc: Global, actions: &[Action<'_>]) -> Result<Option<usize>, AllocError> {
    let mut table = FlowTable::new(alloc)?;
    for at in 0..actions.len() {
        if !does(&mut table, &actions[at]) {
            return Ok(Some(at));
        }
    }
    Ok(None)
}

#[test]
fn keeps_masks(rt: HostRuntime) -> Result<(), Fail> {
    for (name, actions) in &CASES {
        let wrong = first_wrong(rt.alloc(), actions)?;
        assert_right(&rt, name, wrong);
    }
    Ok(())
}
