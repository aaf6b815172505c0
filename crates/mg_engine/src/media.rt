ghost use Rattle.std.specs.Prelude.{◌≡◌, ◌≤◌, IfOk};
ghost use Rattle.mg_words.specs.Limits.{min_depth, max_depth};

use crate::sent_media::SentMedia;
use mg_g711::Frame;
use mg_playout::{Placed, Played, Playout};
use mg_rooms::depth_within;
use mg_rtp::{Header, PAYLOAD_LEN};
use mg_words::{SAMPLES, Stats};
use std::alloc::{AllocError, Global};
use std::marker::Model;

/// The media of the termination in a slot.
#[derive(Drop)]
pub struct HeldMedia {
    play: Playout,
    stats: Stats,
    /// The timestamp of this tick.
    timestamp: u32,
    /// The sequence number of the next packet.
    sequence: u16,
    /// Whether the last tick sent a packet.
    is_sending: bool,
}

impl Model for HeldMedia {
    ghost use Rattle.mg_engine.specs.aids.Media.{SlotMedia};

    ghost Value = { SlotMedia };

    ghost view = { λ m. record {
      play = m.play;
      stats = m.stats;
      timestamp = m.timestamp;
      sequence = m.sequence;
      is_sending = m.is_sending;
    } };
}

impl HeldMedia {
    ghost use Rattle.mg_engine.specs.aids.Media.{idle};
    ghost use Rattle.mg_engine.specs.aids.MediaSteps.{initial_media_at, slot_tuned, slot_placed, slot_played, frame_played, is_concealing, header, slot_ended, slot_passed};
    ghost use Rattle.mg_engine.specs.aids.Quiet.{sent_in, media_restored};
    ghost use Rattle.mg_playout.specs.Playout.{is_idle};
    ghost use Rattle.mg_playout.specs.Played.{is_concealed, sound_of};
    ghost use Rattle.mg_sums.specs.Samples.{frame_or_silence};

    /// Creates idle media. Fails only if the allocation fails.
    pub fn new(alloc: Global) -> Result<HeldMedia, AllocError>
        ensures value { IfOk result (λ media. media ≡ idle) }
    {
        Ok(HeldMedia {
            play: Playout::new(alloc)?,
            stats: Stats::new(),
            timestamp: 0,
            sequence: 0,
            is_sending: false,
        })
    }

    /// Resets the media for a new termination, with the timestamp of its first tick and the sequence number of its
    /// first packet.
    pub fn begin(&mut self, timestamp: u32, sequence: u16)
        ensures value { self.new ≡ initial_media_at timestamp sequence }
    {
        self.play.clear();
        self.stats = Stats::new();
        self.timestamp = timestamp.wrapping_sub(SAMPLES as u32);
        self.sequence = sequence;
        self.is_sending = false;
    }

    /// Resets the media for a termination that has sent this and received nothing. Its play list has this depth.
    pub fn restore(&mut self, depth: u8, sent: SentMedia)
        requires depth { (min_depth ≤ depth) × (depth ≤ max_depth) }
        ensures value { self.new ≡ media_restored depth sent }
    {
        self.play.clear();
        self.play.set_depth(usize::from(depth));
        self.stats = Stats {
            ps: sent.sent,
            pr: 0,
            os: sent.octets,
            or_: 0,
        };
        self.timestamp = sent.timestamp;
        self.sequence = sent.sequence;
        self.is_sending = sent.is_sending;
    }

    /// Returns what the termination has sent.
    pub fn sent(&self) -> SentMedia
        ensures value { result ≡ sent_in self.now }
    {
        SentMedia {
            timestamp: self.timestamp,
            sequence: self.sequence,
            is_sending: self.is_sending,
            sent: self.stats.ps,
            octets: self.stats.os,
        }
    }

    /// Sets the depth of the play list, within the limits, if a command specifies a depth.
    pub fn tune(&mut self, depth: Option<u16>)
        ensures value { self.new ≡ slot_tuned depth self.old }
    {
        if let Some(depth) = depth {
            self.play.set_depth(usize::from(depth_within(depth)));
        }
    }

    /// Places the frame of a received packet, and counts the packet.
    pub fn place(&mut self, header: Header, frame: Frame) -> Placed
        ensures value { slot_placed self.old header frame ≡ (self.new, result) }
    {
        self.stats.pr = self.stats.pr.saturating_add(1);
        self.stats.or_ = self.stats.or_.saturating_add(PAYLOAD_LEN as u64);
        self.play.place(header.ssrc, header.sequence, frame)
    }

    /// Advances by 20 ms. Returns what the play list plays in this tick.
    pub fn play(&mut self) -> Played
        ensures value { self.new ≡ slot_played self.old }
        ensures frame { frame_or_silence (sound_of result) ≡ frame_played self.old }
        ensures concealed { is_concealed result ≡ is_concealing self.old }
    {
        self.timestamp = self.timestamp.wrapping_add(SAMPLES as u32);
        self.play.tick()
    }

    /// Returns whether the next frame is missing and the next tick plays the last frame instead.
    pub fn conceals(&self) -> bool
        ensures value { result ≡ is_concealing self.now }
    {
        self.play.conceals()
    }

    /// Returns the counters.
    pub fn stats(&self) -> Stats
        ensures value { result ≡ self.now.stats }
    {
        self.stats
    }

    /// Returns the header of the next packet, with this payload type and SSRC.
    pub fn header(&self, payload_type: u8, ssrc: u32) -> Header
        ensures value { result ≡ header self.now payload_type ssrc }
    {
        Header {
            marker: !self.is_sending,
            payload_type,
            sequence: self.sequence,
            timestamp: self.timestamp,
            ssrc,
        }
    }

    /// Ends a tick, given whether a packet was sent in it.
    pub fn end_tick(&mut self, is_sent: bool)
        ensures value { self.new ≡ slot_ended is_sent self.old }
    {
        if is_sent {
            self.stats.ps = self.stats.ps.saturating_add(1);
            self.stats.os = self.stats.os.saturating_add(PAYLOAD_LEN as u64);
            self.sequence = self.sequence.wrapping_add(1);
        }
        self.is_sending = is_sent;
    }

    /// Returns whether the play list is idle. An idle list plays silence until a frame starts it.
    pub fn is_idle(&self) -> bool
        ensures value { result ≡ is_idle self.now.play.phase }
    {
        self.play.is_idle()
    }

    /// Counts several ticks, given whether each of them sent a packet. The play list is unchanged.
    pub fn pass(&mut self, count: u64, is_sent: bool)
        ensures value { self.new ≡ slot_passed is_sent count self.old }
    {
        let ticks = (count % (1 << 32)) as u32;
        let samples = ticks.wrapping_mul(SAMPLES as u32);
        self.timestamp = self.timestamp.wrapping_add(samples);
        if is_sent {
            let octets = count.saturating_mul(PAYLOAD_LEN as u64);
            self.stats.ps = self.stats.ps.saturating_add(count);
            self.stats.os = self.stats.os.saturating_add(octets);
            self.sequence = self.sequence.wrapping_add((count % (1 << 16)) as u16);
        }
        self.is_sending = is_sent;
    }
}
