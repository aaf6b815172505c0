ghost use Rattle.std.specs.Prelude.{◌≡◌, ◌<◌, ◌≤◌, IfOk, IfSome};
ghost use Rattle.mg_g711.specs.Frame.{IsFrame};
ghost use Rattle.mg_words.specs.declared.limits.TheConstants.{MIN_DEPTH, MAX_DEPTH};

use crate::phase::Phase;
use crate::placed::Placed;
use crate::places::Places;
use crate::played::Played;
use crate::sequence::{MAX_DROPOUT, MAX_MISORDER, distance};
use crate::source::Source;
use crate::turn::Turn;
use mg_g711::Frame;
use mg_words::{MAX_DEPTH, MIN_DEPTH};
use std::alloc::{AllocError, Global};
use std::marker::Model;

/// A jitter buffer: the frames of one RTP source, in order of sequence number.
///
/// In contracts, a play list appears as the record `PlayList` from `specs/Playout.antt`.
#[derive(Drop)]
pub struct Playout {
    phase: Phase,
    source: Option<Source>,
    places: Places,
}

impl Model for Playout {
    ghost use Rattle.mg_playout.specs.Playout.{PlayList};

    ghost Value = { PlayList };

    ghost use Rattle.mg_playout.specs.Playout.{HasTicksLeft};

    ghost view = { λ p. record { phase = p.phase; source = p.source; last = p.places.last; places = p.places.places } };

    ghost invariant = { λ p. HasTicksLeft p.phase };
}

impl Playout {
    ghost use Rattle.mg_playout.specs.Playout.{first_list, is_idle, placed, ticked, with_depth, started, shifted};
    ghost use Rattle.mg_playout.specs.aids.Turns.{turn_of, turn_at};
    ghost use Rattle.mg_playout.specs.Places.{frame_at};
    ghost use Rattle.mg_playout.specs.Played.{given, is_concealed, sound_of};
    ghost use Rattle.mg_playout.specs.Order.{IsValidList};

    /// Creates an idle play list without a source, with a depth of four places.
    ///
    /// Allocates memory for the maximum depth. Fails only if the allocation fails.
    pub fn new(alloc: Global) -> Result<Self, AllocError>
        ensures first { IfOk result (λ playout. playout ≡ first_list) }
    {
        Ok(Playout {
            phase: Phase::Idle,
            source: None,
            places: Places::new(alloc)?,
        })
    }

    /// Places a frame by its source and its sequence number. Returns how it was placed, or why it was dropped.
    pub fn place(&mut self, ssrc: u32, sequence: u16, frame: Frame) -> Placed
        ensures step { placed self.old ssrc sequence frame ≡ (self.new, result) }
    {
        match self.turn(ssrc, sequence) {
            Turn::Start => {
                self.start(ssrc, sequence, frame);
                Placed::Started
            }
            Turn::Late => Placed::Late,
            Turn::Again => Placed::Again,
            Turn::At(place) => {
                self.places.put(place, frame);
                Placed::Placed
            }
            Turn::Push(count) => {
                self.shift(count);
                let last = self.places.depth() - 1;
                self.places.put(last, frame);
                Placed::Pushed
            }
        }
    }

    /// Advances by 20 ms, and returns what is played. If the frame that is due is missing, the previous frame replaces
    /// it at half its level. The list plays silence while it is idle or waiting, when it runs empty, and if the
    /// previous frame is missing, too.
    pub fn tick(&mut self) -> Played
        ensures step { ticked self.old ≡ (self.new, result) }
        ensures frame { IfSome (sound_of result) IsFrame }
    {
        match self.phase {
            Phase::Idle => Played::Silence,
            Phase::Wait(1) => {
                self.phase = Phase::Run;
                Played::Silence
            }
            Phase::Wait(ticks) => {
                self.phase = Phase::Wait(ticks - 1);
                Played::Silence
            }
            Phase::Run if self.places.is_empty() => {
                self.phase = Phase::Idle;
                self.places.forget();
                Played::Silence
            }
            Phase::Run => self.advance(),
        }
    }

    /// Returns whether the next frame is missing and the next tick plays the last frame instead.
    pub fn conceals(&self) -> bool
        ensures value { result ≡ is_concealed ((ticked self.now).1) }
    {
        self.phase == Phase::Run && !self.places.is_empty() && self.places.conceals()
    }

    /// Returns whether the play list is idle. An idle list plays silence until a frame starts it.
    pub fn is_idle(&self) -> bool
        ensures value { result ≡ is_idle self.now.phase }
    {
        self.phase == Phase::Idle
    }

    /// Sets the depth, in places of 20 ms. Frames at places that no longer exist are dropped.
    ///
    /// A wait that is already in progress keeps its length.
    pub fn set_depth(&mut self, depth: usize)
        requires at_least { MIN_DEPTH ≤ depth }
        requires at_most { depth ≤ MAX_DEPTH }
        ensures step { self.new ≡ with_depth self.old depth }
    {
        self.places.set_depth(depth);
    }

    /// Resets the play list to its initial state: idle, without a source, with a depth of four places.
    pub fn clear(&mut self)
        ensures first { self.new ≡ first_list }
    {
        self.phase = Phase::Idle;
        self.source = None;
        self.places.clear();
    }

    /// Exposes the invariant of every play list to a proof. Has no effect.
    pub(crate) fn assert_invariant(&self)
        ensures { IsValidList self.now }
    {
        self.places.assert_invariant();
        let _next = self.source.map(|source| source.next);
    }

    /// Returns where the frame of a packet belongs.
    fn turn(&self, ssrc: u32, sequence: u16) -> Turn
        ensures { result ≡ turn_of self.now ssrc sequence }
    {
        match self.source {
            Some(source) if ssrc == source.ssrc => self.turn_at(distance(source.next, sequence)),
            _ => Turn::Start,
        }
    }

    /// Returns where a frame of the current source belongs, by its distance from the next sequence number.
    fn turn_at(&self, distance: i16) -> Turn
        ensures { result ≡ turn_at self.now distance }
    {
        if distance < -MAX_MISORDER || distance >= MAX_DROPOUT {
            return Turn::Start;
        }
        if distance < 0 {
            return Turn::Late;
        }
        if self.phase == Phase::Idle {
            return Turn::Start;
        }
        let place = usize::from(distance.unsigned_abs());
        let depth = self.places.depth();
        if place >= depth {
            Turn::Push(place - depth + 1)
        } else if self.places.is_filled(place) {
            Turn::Again
        } else {
            Turn::At(place)
        }
    }

    /// Restarts at this frame: its sequence number is the next to be played.
    fn start(&mut self, ssrc: u32, sequence: u16, frame: Frame)
        ensures { self.new ≡ started self.old ssrc sequence frame }
    {
        self.phase = Phase::Wait((self.places.depth() / 2) as u8);
        self.source = Some(Source {
            ssrc,
            next: sequence,
        });
        self.places.start(frame);
    }

    /// Increases the next sequence number by `count`, and moves every frame down by as many places.
    fn shift(&mut self, count: usize)
        requires { count < 65536 }
        ensures { self.new ≡ shifted self.old count }
    {
        let count = count as u16;
        self.source = self.source.map(|source| source.advanced(count));
        self.places.shift(usize::from(count));
    }

    /// Plays what is due for place 0, and shifts the other frames by one place.
    fn advance(&mut self) -> Played
        ensures list { self.new ≡ record (shifted self.old 1) { last = frame_at self.old.places 0 } }
        ensures value { result ≡ given (frame_at self.old.places 0) self.old.last }
        ensures frame { IfSome (sound_of result) IsFrame }
    {
        self.source = self.source.map(|source| source.advanced(1));
        self.places.give()
    }
}
