//! Puts an engine together again from what is known of its terminations.
//!
//! A restored engine has its terminations, contexts and topology, and what each termination has sent. It has not
//! received anything yet.

ghost use Rattle.std.specs.Prelude.{◌≡◌, ℕ, ◌<◌, ◌≤◌, ◌+◌, ◌*◌, ◌%◌, ◌^◌, ◌&&◌, true, false, IsTrue, IfSome, IfNone, Some, length, if◌then◌else◌, slice_set, option_map};
ghost use Rattle.std.specs.List.{slice_get};
ghost use Rattle.mg_words.specs.Limits.{termination_limit, min_depth, max_depth};
ghost use Rattle.mg_rooms.specs.aids.Sound.{IsSound};
ghost use Rattle.mg_rooms.specs.aids.Restoring.{may_restore, may_skip, restored, skipped};
ghost use Rattle.mg_sums.specs.Samples.{silence};
ghost use Rattle.mg_engine.specs.Config.{limits_of};
ghost use Rattle.mg_engine.specs.Flow.{share_context};
ghost use Rattle.mg_engine.specs.Gateway.{Gateway};
ghost use Rattle.mg_engine.specs.Restored.{without_speech};
ghost use Rattle.mg_engine.specs.aids.Members.{Enters};
ghost use Rattle.mg_engine.specs.aids.Quiet.{HaveDepths, IsQuiet, media_restored, sent_of};
ghost use Rattle.mg_engine.specs.aids.Stands.{StandsFor};
ghost use Rattle.mg_engine.specs.aids.Restoring.{SaysWord, ShareNone, ShareSome, is_tick_of};

use crate::config::Config;
use crate::engine::Engine;
use crate::media::HeldMedia;
use crate::membership::{enter, member_place};
use crate::sent_media::SentMedia;
use mg_flow::Place;
use mg_rooms::{Member, Record, Rooms};
use mg_sums::{Row, Sums};

impl Engine {
    /// Returns what the termination at an index has sent. Terminations are counted from 0 in order of number.
    pub fn sent_media(&self, place: usize) -> SentMedia
        requires there { place < length self.now.rooms.terminations }
        ensures value { (w : Gateway) → StandsFor self.now w →
            option_map (sent_of w.config) (slice_get w.media place) ≡ Some result }
    {
        let slot = self.held_at(place);
        self.media[usize::from(slot)].sent()
    }

    /// Raises the numbers of the next termination and the next context.
    ///
    /// Returns false, and changes nothing, if either is lower than now or higher than the last number plus one.
    pub fn skip_to(&mut self, termination: u64, context: u64) -> bool
        ensures value { result ≡ may_skip self.old.rooms termination context }
        ensures rooms { self.new.rooms ≡
            (if result then skipped self.old.rooms termination context else self.old.rooms) }
        ensures refused { result ≡ false → self.new ≡ self.old }
        ensures config { self.new.config ≡ self.old.config }
        ensures quiet { IsQuiet self.old → IsQuiet self.new }
    {
        self.rooms.skip_to(termination, context)
    }

    /// Puts back a termination with this record, which has sent this and received nothing.
    ///
    /// The termination becomes the last member of its context, and each other member and it hear each other. If the
    /// context doesn't exist, it is created in this room. Returns false, and changes nothing, if the terminations and
    /// contexts don't allow it ([`Rooms::restore`](mg_rooms::Rooms::restore)), or if no tick has the timestamp.
    pub fn restore(&mut self, termination: &Record, room: u8, media: SentMedia) -> bool
        ensures value { result ≡ (is_tick_of self.old.config media.timestamp && may_restore self.old.rooms termination.now room) }
        ensures rooms { self.new.rooms ≡ (if result then restored self.old.rooms termination.now room else self.old.rooms) }
        ensures media { result ≡ true → self.new.media ≡
            slice_set self.old.media termination.now.slot (media_restored termination.now.depth media) }
        ensures entered { result ≡ true → Enters self.old.flows self.new.flows
            (record { room = room; seat = termination.now.seat }) termination.now.mode }
        ensures refused { result ≡ false → self.new ≡ self.old }
        ensures config { self.new.config ≡ self.old.config }
        ensures quiet { IsQuiet self.old → IsQuiet self.new }
    {
        if !is_tick_of(&self.config, media.timestamp) {
            return false;
        }
        if !self.rooms.restore(termination, room) {
            return false;
        }
        assert_ranges(media.timestamp, media.sequence);
        let rank = self.rooms.rank(termination.number);
        self.held.insert(rank, termination.slot);
        begin_with(&mut self.media, &mut self.sums, termination, media);
        let member = Member {
            record: *termination,
            room,
        };
        enter(&mut self.flows, &mut self.seating, &mut self.sums, member);
        true
    }

    /// Sets the last word on two members of a context, in one direction: whether `listener` hears `talker`.
    ///
    /// Returns false, and changes nothing, if they aren't two different members of one context.
    pub fn set_word(&mut self, talker: u32, listener: u32, is_heard: bool) -> bool
        ensures value { (w : Gateway) → StandsFor self.old w → result ≡ share_context w talker listener }
        ensures word { IsTrue result → SaysWord self.old self.new talker listener is_heard }
        ensures refused { result ≡ false → self.new ≡ self.old }
        ensures rooms { self.new.rooms ≡ self.old.rooms }
        ensures config { self.new.config ≡ self.old.config }
        ensures quiet { IsQuiet self.old → IsQuiet self.new }
    {
        match places_of(&self.rooms, talker, listener) {
            Some((from, to)) => {
                self.flows.set_word(from, to, is_heard);
                true
            }
            None => false,
        }
    }

    /// Exposes to a proof that a quiet engine represents some gateway without speech. Has no effect.
    pub fn assert_represents(&self)
        ensures gateway { IsQuiet self.now → (w : Gateway) × StandsFor self.now w × HaveDepths w
            × (without_speech w ≡ w) }
        ensures limits { self.now.rooms.limits ≡ limits_of self.now.config }
    {
        let _config = &self.config;
    }
}

/// Returns the places of two terminations, or `None` if they aren't two different members of one context.
fn places_of(rooms: &Rooms, talker: u32, listener: u32) -> Option<(Place, Place)>
    requires sound { IsSound rooms.now }
    ensures some { IfSome result (λ (p, q). ShareSome rooms.now talker listener p q) }
    ensures none { IfNone result (ShareNone rooms.now talker listener) }
{
    if talker == listener {
        return None;
    }
    let speaking = rooms.member(talker)?;
    let hearing = rooms.member(listener)?;
    if speaking.record.context != hearing.record.context {
        return None;
    }
    Some((member_place(speaking), member_place(hearing)))
}

/// Returns whether some tick has this timestamp. Ticks are 160 samples apart, so modulo 2^32 they reach each number that
/// differs from the first timestamp by a multiple of 32.
fn is_tick_of(config: &Config, timestamp: u32) -> bool
    ensures value { result ≡ is_tick_of config.now timestamp }
{
    timestamp % 32 == config.timestamp % 32
}

/// Exposes to a proof that the numbers fit their types. Has no effect.
fn assert_ranges(timestamp: u32, sequence: u16)
    ensures fit { (timestamp < 2 ^ 32) × (sequence < 2 ^ 16) }
{}

/// Resets the media of a slot for a termination that has sent this and received nothing, with a silent frame.
fn begin_with(media: &mut Vec<HeldMedia>, sums: &mut Sums, termination: &Record, sent: SentMedia)
    requires slot { (termination.now.slot < length media.old.items) × (termination.now.slot < termination_limit) }
    requires depth { (min_depth ≤ termination.now.depth) × (termination.now.depth ≤ max_depth) }
    ensures restored { media.new.items ≡
        slice_set media.old.items termination.now.slot (media_restored termination.now.depth sent) }
    ensures silent { sums.new.frames ≡ slice_set sums.old.frames termination.now.slot silence }
    ensures joined { sums.new.rooms ≡ sums.old.rooms }
    ensures rows { length sums.old.frames ≡ termination_limit }
{
    media[usize::from(termination.slot)].restore(termination.depth, sent);
    sums.set_frame(Row::new(termination.slot), None);
}
