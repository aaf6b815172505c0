ghost use Rattle.std.specs.Prelude.{◌≡◌, ◌+◌, ◌<◌, ◌≤◌, ◌++◌, length, slice_set, is_some, Some, None, IfOk, IfSome};
ghost use Rattle.std.specs.Option.{option_copied, option_flatten};
ghost use Rattle.circular_buffer.specs.Buffer.{buffer};
ghost use Rattle.mg_g711.specs.Frame.{IsFrame};
ghost use Rattle.mg_playout.specs.Places.{empty_places, frame_at, has_no_frame, fallen, resized, started_with};
ghost use Rattle.mg_playout.specs.Played.{given, is_concealed, sound_of};

use crate::played::Played;
use circular_buffer::HeapCircularBuffer;
use mg_g711::theorems::frames_are_whole;
use mg_g711::{Frame, halve_frame};
use mg_words::{FIRST_DEPTH, MAX_DEPTH, MIN_DEPTH};
use std::alloc::{AllocError, Global};
use std::marker::Model;

/// The frame that was due in the last tick, if it had arrived, and the waiting frames by place. Place 0 is played next.
///
/// The ring's first item is the last frame, followed by an item for each place. So a tick doesn't move any frame in
/// memory: the frame at place 0 becomes the last frame. In contracts, the frames appear as the record `KeptFrames` from
/// `specs/aids/Ring.antt`.
#[derive(Drop)]
pub struct Places {
    ring: HeapCircularBuffer<Option<Frame>>,
}

impl Model for Places {
    ghost use Rattle.mg_playout.specs.aids.Ring.{KeptFrames};

    ghost Value = { KeptFrames };

    ghost use Rattle.mg_playout.specs.aids.Ring.{kept_in, IsRingOfPlaces};

    ghost view = { λ p. kept_in p.ring.items };

    ghost invariant = { λ p. IsRingOfPlaces p.ring };
}

impl Places {
    ghost use Rattle.mg_playout.specs.Places.{ArePlaces};

    /// Returns the places of a new play list, all empty, with no last frame.
    pub(crate) fn new(alloc: Global) -> Result<Self, AllocError>
        ensures last { IfOk result (λ kept. kept.last ≡ None) }
        ensures places { IfOk result (λ kept. kept.places ≡ empty_places FIRST_DEPTH) }
    {
        let mut ring = HeapCircularBuffer::with_capacity(alloc, MAX_DEPTH + 1)?;
        append_empty(&mut ring, FIRST_DEPTH + 1);
        Ok(Places { ring })
    }

    /// Exposes the invariant of the frames to a proof. Has no effect.
    pub(crate) fn assert_invariant(&self)
        ensures last { IfSome self.now.last IsFrame }
        ensures places { ArePlaces self.now.places }
    {
        let _ring = &self.ring;
    }

    /// Returns the number of places.
    pub(crate) fn depth(&self) -> usize
        ensures depth { result ≡ length self.now.places }
        ensures at_least { MIN_DEPTH ≤ result }
        ensures at_most { result ≤ MAX_DEPTH }
    {
        self.ring.len() - 1
    }

    /// Returns whether every place is empty.
    pub(crate) fn is_empty(&self) -> bool
        ensures { result ≡ has_no_frame self.now.places }
    {
        let mut items = self.ring.iter();
        let _last = items.next();
        items.all(|place| place.is_none())
    }

    /// Returns whether the place has a frame.
    #[tactic(auto, using(crate::proofs::RingLemmas::flatten_of_get))]
    pub(crate) fn is_filled(&self, place: usize) -> bool
        requires { place < length self.now.places }
        ensures { result ≡ is_some (frame_at self.now.places place) }
    {
        matches!(self.ring.get(place + 1), Some(Some(_)))
    }

    /// Stores a frame at a place.
    pub(crate) fn put(&mut self, place: usize, frame: Frame)
        requires { place < length self.old.places }
        ensures last { self.new.last ≡ self.old.last }
        ensures places { self.new.places ≡ slice_set self.old.places place (Some frame) }
    {
        frames_are_whole(&frame);
        if let Some(item) = self.ring.get_mut(place + 1) {
            *item = Some(frame);
        }
    }

    /// Drops all frames, and stores a new frame at place 0.
    pub(crate) fn start(&mut self, frame: Frame)
        ensures last { self.new.last ≡ None }
        ensures places { self.new.places ≡ started_with frame (length self.old.places) }
    {
        frames_are_whole(&frame);
        let len = self.ring.len();
        self.ring.clear();
        self.ring.push_back(None);
        self.ring.push_back(Some(frame));
        append_empty(&mut self.ring, len - 2);
    }

    /// Moves each frame down by `count` places. Frames that would fall below place 0 are dropped.
    pub(crate) fn shift(&mut self, count: usize)
        ensures last { self.new.last ≡ self.old.last }
        ensures places { self.new.places ≡ fallen self.old.places count }
    {
        let depth = self.depth();
        let kept = depth.saturating_sub(count);
        let last = self.ring.pop_front().flatten();
        self.ring.truncate_front(kept);
        self.ring.push_front(last);
        append_empty(&mut self.ring, depth - kept);
    }

    /// Plays what is due for place 0, and moves the other frames down by one place.
    pub(crate) fn give(&mut self) -> Played
        ensures last { self.new.last ≡ frame_at self.old.places 0 }
        ensures places { self.new.places ≡ fallen self.old.places 1 }
        ensures value { result ≡ given (frame_at self.old.places 0) self.old.last }
        ensures frame { IfSome (sound_of result) IsFrame }
    {
        let depth = self.depth();
        let played = given(self.ring.get(1), self.ring.get(0));
        self.ring.truncate_front(depth);
        self.ring.push_back(None);
        played
    }

    /// Returns whether the frame at place 0 is missing and the last frame would be played instead.
    pub(crate) fn conceals(&self) -> bool
        ensures { result ≡ is_concealed (given (frame_at self.now.places 0) self.now.last) }
    {
        matches!(
            (self.ring.get(1), self.ring.get(0)),
            (Some(None), Some(Some(_)))
        )
    }

    /// Drops the last frame.
    pub(crate) fn forget(&mut self)
        ensures last { self.new.last ≡ None }
        ensures places { self.new.places ≡ self.old.places }
    {
        if let Some(last) = self.ring.get_mut(0) {
            *last = None;
        }
    }

    /// Changes the depth. Frames at places that no longer exist are dropped.
    pub(crate) fn set_depth(&mut self, depth: usize)
        requires at_least { MIN_DEPTH ≤ depth }
        requires at_most { depth ≤ MAX_DEPTH }
        ensures last { self.new.last ≡ self.old.last }
        ensures places { self.new.places ≡ resized self.old.places depth }
    {
        self.ring.truncate_back(depth + 1);
        let missing = depth + 1 - self.ring.len();
        append_empty(&mut self.ring, missing);
    }

    /// Drops all frames, and resets the depth to the initial one.
    pub(crate) fn clear(&mut self)
        ensures last { self.new.last ≡ None }
        ensures places { self.new.places ≡ empty_places FIRST_DEPTH }
    {
        self.ring.clear();
        append_empty(&mut self.ring, FIRST_DEPTH + 1);
    }
}

/// Returns what is played, given the frame that is due and the last frame.
fn given(frame: Option<&Option<Frame>>, last: Option<&Option<Frame>>) -> Played
    ensures value { result ≡ given (option_flatten (option_copied frame.entry))
        (option_flatten (option_copied last.entry)) }
    ensures frame { IfSome (option_flatten (option_copied frame.entry)) IsFrame →
        IfSome (sound_of result) IsFrame }
{
    match (frame, last) {
        (Some(Some(frame)), _) => Played::Frame(*frame),
        (_, Some(Some(last))) => Played::Concealed(halve_frame(last)),
        _ => Played::Silence,
    }
}

/// Appends empty places.
fn append_empty(ring: &mut HeapCircularBuffer<Option<Frame>>, count: usize)
    requires { length ring.old.items + count ≤ ring.old.capacity }
    ensures { ring.new ≡ buffer (ring.old.items ++ empty_places count) ring.old.capacity }
{
    for _ in 0..count {
        ring.push_back(None);
    }
}
