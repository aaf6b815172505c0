//! Tests of play lists.

use crate::equality::assert_right;
use mg_g711::Frame;
use mg_playout::{MAX_DEPTH, MIN_DEPTH, Placed, Played, Playout};
use std::alloc::{AllocError, Global};
use std::test::Fail;

/// Returns a frame whose samples all have this value.
fn frame(sample: i16) -> Frame {
    [sample; 160]
}

/// A call on a play list with its outcome, or a check of the list after the previous calls.
#[derive(Clone, Copy)]
enum Action {
    /// A frame of one source is placed. Its samples equal its sequence number.
    Place(u16, Placed),
    /// A frame of another source is placed.
    PlaceOther(u16, Placed),
    /// A tick plays a received frame whose samples have this value.
    Hear(i16),
    /// A tick conceals a missing frame with a frame whose samples have this value.
    Conceal(i16),
    /// A tick plays silence.
    Rest,
    SetDepth(usize),
    Clear,
    /// Whether the list is idle.
    Idle(bool),
}

/// The cases: calls on new play lists, which have four places and wait for two ticks.
const CASES: [(&str, &[Action]); 9] = [
    (
        "frames come in order of sequence",
        &[
            Action::Place(65534, Placed::Started),
            Action::Place(0, Placed::Placed),
            Action::Place(65535, Placed::Placed),
            Action::Place(65535, Placed::Again),
            Action::Rest,
            Action::Rest,
            Action::Hear(-2),
            Action::Hear(-1),
            Action::Hear(0),
            Action::Rest,
            // The last tick found the list empty, so the next frame starts the list.
            Action::Place(1, Placed::Started),
        ],
    ),
    (
        "the distance decides",
        &[
            Action::Place(100, Placed::Started),
            Action::Place(110, Placed::Pushed),
            // The next number is 107.
            Action::Place(3107, Placed::Started),
            Action::Place(3057, Placed::Late),
            // These frames are 100 behind, 101 behind and 2999 ahead of the next number.
            Action::Place(3007, Placed::Late),
            Action::Place(3006, Placed::Started),
            Action::Place(6005, Placed::Pushed),
            // The next number is 6002.
            Action::Place(6002, Placed::Placed),
            Action::Place(9002, Placed::Started),
        ],
    ),
    (
        "pushed frames keep their order",
        &[
            Action::Place(100, Placed::Started),
            Action::Place(103, Placed::Placed),
            Action::Place(105, Placed::Pushed),
            Action::Rest,
            Action::Rest,
            Action::Rest,
            Action::Hear(103),
            Action::Conceal(51),
            Action::Hear(105),
            Action::Rest,
        ],
    ),
    (
        "the depth bounds the places",
        &[
            Action::SetDepth(16),
            Action::Place(0, Placed::Started),
            Action::Place(15, Placed::Placed),
            Action::Place(16, Placed::Pushed),
            Action::Clear,
            Action::SetDepth(2),
            Action::Place(0, Placed::Started),
            Action::Place(1, Placed::Placed),
            Action::Place(2, Placed::Pushed),
        ],
    ),
    (
        "a lowered depth drops frames",
        &[
            Action::SetDepth(16),
            Action::Place(0, Placed::Started),
            Action::Place(1, Placed::Placed),
            Action::Place(2, Placed::Placed),
            Action::SetDepth(2),
            // The list still waits for 8 ticks, half of its old depth.
            Action::Rest,
            Action::Rest,
            Action::Rest,
            Action::Rest,
            Action::Rest,
            Action::Rest,
            Action::Rest,
            Action::Rest,
            Action::Hear(0),
            Action::Hear(1),
            Action::Rest,
        ],
    ),
    (
        "another source restarts",
        &[
            Action::Place(7, Placed::Started),
            Action::PlaceOther(8, Placed::Started),
            Action::Rest,
            Action::Rest,
            Action::Hear(8),
            Action::Rest,
            Action::SetDepth(8),
            Action::PlaceOther(9, Placed::Started),
            Action::Clear,
            Action::Rest,
            Action::PlaceOther(9, Placed::Started),
            Action::PlaceOther(13, Placed::Pushed),
        ],
    ),
    (
        "a second missing frame is silent",
        &[
            Action::Place(10, Placed::Started),
            Action::Place(13, Placed::Placed),
            Action::Rest,
            Action::Rest,
            Action::Hear(10),
            Action::Conceal(5),
            Action::Rest,
            Action::Hear(13),
        ],
    ),
    (
        "a start forgets the last frame",
        &[
            Action::Place(1, Placed::Started),
            Action::Place(3, Placed::Placed),
            Action::Rest,
            Action::Rest,
            Action::Hear(1),
            // The frame that starts the list is pushed out, so place 0 is empty and there is no last frame.
            Action::PlaceOther(100, Placed::Started),
            Action::PlaceOther(110, Placed::Pushed),
            Action::Rest,
            Action::Rest,
            Action::Rest,
        ],
    ),
    (
        "a list is idle until a frame starts it, and again after the tick that finds it empty",
        &[
            Action::Idle(true),
            Action::Place(1, Placed::Started),
            Action::Idle(false),
            Action::Rest,
            Action::Idle(false),
            Action::Rest,
            Action::Idle(false),
            Action::Hear(1),
            Action::Idle(false),
            Action::Rest,
            Action::Idle(true),
        ],
    ),
];

/// Places a frame. Returns whether the result is as wanted.
fn places(playout: &mut Playout, source: u32, sequence: u16, wanted: Placed) -> bool {
    playout.place(source, sequence, frame(sequence.cast_signed())) == wanted
}

/// Sets the depth if it is within the limits. Returns whether it is.
fn set_depth(playout: &mut Playout, depth: usize) -> bool {
    if depth < MIN_DEPTH || depth > MAX_DEPTH {
        return false;
    }
    playout.set_depth(depth);
    true
}

/// Carries out an action. Returns whether it has the given outcome.
fn does(playout: &mut Playout, action: Action) -> bool {
    match action {
        Action::Place(sequence, wanted) => places(playout, 1, sequence, wanted),
        Action::PlaceOther(sequence, wanted) => places(playout, 2, sequence, wanted),
        Action::Hear(sample) => playout.tick() == Played::Frame(frame(sample)),
        Action::Conceal(sample) => playout.tick() == Played::Concealed(frame(sample)),
        Action::Rest => playout.tick() == Played::Silence,
        Action::SetDepth(depth) => set_depth(playout, depth),
        Action::Clear => {
            playout.clear();
            true
        }
        Action::Idle(is_idle) => playout.is_idle() == is_idle,
    }
}

/// Returns the number of the first action without the given outcome, or `None` if there is no such action.
fn first_wrong(alloc: Global, actions: &[Action]) -> Result<Option<usize>, AllocError> {
    let mut playout = Playout::new(alloc)?;
    for at in 0..actions.len() {
        if !does(&mut playout, actions[at]) {
            return Ok(Some(at));
        }
    }
    Ok(None)
}

#[test]
fn plays_frames(rt: HostRuntime) -> Result<(), Fail> {
    for (name, actions) in &CASES {
        let wrong = first_wrong(rt.alloc(), actions)?;
        assert_right(&rt, name, wrong);
    }
    Ok(())
}

/// Returns whether a missing frame is replaced by the frame before it, at half its level.
fn halves_the_missing_frame(alloc: Global) -> Result<bool, AllocError> {
    let mut received = frame(0);
    received[..4].copy_from_slice(&[-3, -1, 1, 3]);
    let mut halves = frame(0);
    halves[..4].copy_from_slice(&[-1, 0, 0, 1]);
    let mut playout = Playout::new(alloc)?;
    Ok(
        playout.place(1, 1, received) == Placed::Started
            && playout.place(1, 3, frame(3)) == Placed::Placed
            && playout.tick() == Played::Silence
            && playout.tick() == Played::Silence
            && playout.tick() == Played::Frame(received)
            && playout.tick() == Played::Concealed(halves)
            && playout.tick() == Played::Frame(frame(3))
            && playout.tick() == Played::Silence,
    )
}

#[test]
fn conceals_frames(rt: HostRuntime) -> Result<(), Fail> {
    assert!(rt; halves_the_missing_frame(rt.alloc())?);
    Ok(())
}
