//! Properties of play lists.
//!
//! The functions do nothing: their contracts are the theorems, in terms of `specs/Order.antt`.

ghost use Rattle.std.specs.Prelude.{◌≡◌, ◌≢◌, ℕ, ◌+◌, ◌%◌, ◌<◌, ◌≤◌, ℤ, ◌+ℤ◌, pos, List, length, map, Option, Some, None, FitsSigned};
ghost use Rattle.std.specs.Int.{w16, int_rem_euclid};
ghost use Rattle.mg_g711.specs.Frame.{halved};
ghost use Rattle.mg_playout.specs.Order.{IsValidList, frame_under, given_after, given_at};
ghost use Rattle.mg_playout.specs.Places.{FramePlaces, frame_at};
ghost use Rattle.mg_playout.specs.Played.{frame_from_packet};
ghost use Rattle.mg_playout.specs.Playout.{PlayList, depth_of, placed};
ghost use Rattle.mg_playout.specs.Sequence.{distance_of, steps_between};

use crate::phase::Phase;
use crate::placed::Placed;
use crate::played::Played;
use crate::playout::Playout;
use crate::source::Source;

/// Every play list has 2 to 16 places, holds only valid frames and, while it is waiting, has at least one tick left to
/// wait.
pub fn play_lists_are_valid(list: &Playout)
    ensures { IsValidList list.now }
{
    list.assert_invariant();
}

/// Adding the distance between two sequence numbers to the first gives the second, modulo 65536.
pub fn distances_recover_the_number()
    ensures range { (from to : ℕ) → FitsSigned w16 (distance_of from to) }
    ensures sum { (from to : ℕ) → from < 65536 → to < 65536 →
        int_rem_euclid (pos from +ℤ distance_of from to) (pos 65536) ≡ pos to }
{}

/// An accepted frame waits under its sequence number, no matter when it arrives.
pub fn placed_frame_waits_under_its_number()
    ensures { (list : PlayList) (ssrc sequence : ℕ) (frame : List ℤ) →
        IsValidList list → sequence < 65536 →
        (placed list ssrc sequence frame).1 ≢ Placed.Late →
        (placed list ssrc sequence frame).1 ≢ Placed.Again →
        frame_under (placed list ssrc sequence frame).0 sequence ≡ Some frame }
{}

/// The other frames keep their sequence numbers as long as there is room for them. When a play list starts, it drops
/// them all.
pub fn other_frames_keep_their_numbers()
    ensures stay { (list : PlayList) (ssrc sequence : ℕ) (frame : List ℤ) (after : Source) (other : ℕ) →
        IsValidList list → sequence < 65536 → other < 65536 → other ≢ sequence →
        (placed list ssrc sequence frame).1 ≢ Placed.Started →
        (placed list ssrc sequence frame).0.source ≡ Some after →
        steps_between after.next other < depth_of list →
        frame_under (placed list ssrc sequence frame).0 other ≡ frame_under list other }
    ensures started { (list : PlayList) (ssrc sequence : ℕ) (frame : List ℤ) (other : ℕ) →
        sequence < 65536 → other < 65536 → other ≢ sequence →
        (placed list ssrc sequence frame).1 ≡ Placed.Started →
        frame_under (placed list ssrc sequence frame).0 other ≡ None }
{}

/// Without new frames, a running play list plays its frames in order of sequence number, one per tick.
///
/// If a place is empty, no received frame is played for it. A waiting list plays its frames in this way once its wait
/// is over.
pub fn ticks_give_frames_in_order()
    ensures run { (list : PlayList) (ticks : ℕ) → list.phase ≡ Phase.Run →
        given_after ticks list ≡ given_at list.places list.last ticks }
    ensures early { (list : PlayList) (wait ticks : ℕ) → list.phase ≡ Phase.Wait wait → ticks < wait →
        given_after ticks list ≡ Played.Silence }
    ensures wait { (list : PlayList) (wait ticks : ℕ) → list.phase ≡ Phase.Wait wait → 1 ≤ wait →
        given_after (wait + ticks) list ≡ given_at list.places list.last ticks }
    ensures frames { (places : FramePlaces) (last : Option (List ℤ)) (place : ℕ) →
        frame_from_packet (given_at places last place) ≡ frame_at places place }

    // The frame at a place has the sequence number `source.next + place`, modulo 65536.
    ensures numbers { (list : PlayList) (source : Source) (place : ℕ) →
        IsValidList list → list.source ≡ Some source → place < 65536 →
        frame_at list.places place ≡ frame_under list ((source.next + place) % 65536) }
{}

/// A single missing frame between two received frames is replaced by the frame before it, halved.
///
/// If the frame at place 0 is missing, place 1 has a frame, and there is a last frame, the last frame replaces the
/// missing one.
pub fn one_missing_frame_is_concealed()
    ensures next { (places : FramePlaces) (last after : List ℤ) →
        frame_at places 0 ≡ None → frame_at places 1 ≡ Some after →
        given_at places (Some last) 0 ≡ Played.Concealed (map halved last) }
    ensures placed { (places : FramePlaces) (last : Option (List ℤ)) (place : ℕ) (before after : List ℤ) →
        frame_at places place ≡ Some before → frame_at places (place + 1) ≡ None →
        frame_at places (place + 2) ≡ Some after →
        given_at places last (place + 1) ≡ Played.Concealed (map halved before) }
{}
