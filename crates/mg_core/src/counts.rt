ghost use Rattle.std.specs.Prelude.{◌≡◌, ◌+◌, ◌<◌};
ghost use Rattle.mg_engine.specs.declared.taken.Taken.TheVariants as takens;
ghost use Rattle.mg_core.specs.World.{result_place};

use mg_engine::{DropCause, Taken};
use mg_playout::Placed;

/// The number of possible results of placing a frame.
const PLACINGS: usize = 5;

/// The number of reasons to drop a datagram.
pub const DROP_CAUSES: usize = 6;

/// The counters of a run. A counter that reaches its maximum stays there.
#[derive(Clone, Copy, Debug, PartialEq, Eq)]
pub struct Counts {
    /// Script lines that were read.
    pub lines: u64,
    /// Control datagrams.
    pub control: u64,
    /// RTP datagrams.
    pub media: u64,
    /// Ticks of 20 ms.
    pub ticks: u64,
    /// Answers and packets that were written.
    pub sent: u64,
    /// Failed sends and receives, and control datagrams that were dropped because memory ran out.
    pub failed: u64,
    /// RTP datagrams by the result of placing their frames: started, placed, pushed, again, late.
    pub placed: [u64; PLACINGS],
    /// Dropped RTP datagrams by cause: no termination, stray, no Local, not RTP, payload type, length.
    pub dropped: [u64; DROP_CAUSES],
    /// Frames played in place of missing ones.
    pub concealed: u64,
}

impl Default for Counts {
    ghost use Rattle.std.specs.Prelude.{◌≡◌};
    ghost use Rattle.mg_core.specs.World.{counts_of, no_events};

    ghost is_default = { λ counts. counts ≡ counts_of no_events };

    fn default() -> Self {
        Counts::new()
    }
}

impl Counts {
    ghost use Rattle.std.specs.Prelude.{◌≡◌, ◌+◌, ℕ};
    ghost use Rattle.mg_core.specs.World.{Tally, capped, counts_of, no_events, with_taken, with_tick};

    /// Returns counters that are all zero.
    pub fn new() -> Counts
        ensures value { result ≡ counts_of no_events }
    {
        Counts {
            lines: 0,
            control: 0,
            media: 0,
            ticks: 0,
            sent: 0,
            failed: 0,
            placed: [0; PLACINGS],
            dropped: [0; DROP_CAUSES],
            concealed: 0,
        }
    }

    /// Counts a control datagram.
    pub fn count_control(&mut self)
        ensures counted { (t : Tally) → self.old ≡ counts_of t →
            self.new ≡ counts_of (record t { control = t.control + 1 }) }
    {
        self.control = self.control.saturating_add(1);
    }

    /// Counts an RTP datagram by its outcome.
    pub fn count_media(&mut self, taken: Taken)
        ensures counted { (t : Tally) → self.old ≡ counts_of t → self.new ≡ counts_of (with_taken taken t) }
    {
        self.media = self.media.saturating_add(1);
        match taken {
            Taken::Placed(placed) => {
                let place = placed_counter(placed);
                self.placed[place] = self.placed[place].saturating_add(1);
            }
            Taken::Dropped(cause) => {
                let place = cause_counter(cause);
                self.dropped[place] = self.dropped[place].saturating_add(1);
            }
        }
    }

    /// Counts a tick and the frames concealed in it.
    pub fn count_tick(&mut self, concealed: usize)
        ensures counted { (t : Tally) → self.old ≡ counts_of t → self.new ≡ counts_of (with_tick concealed t) }
    {
        self.ticks = self.ticks.saturating_add(1);
        self.concealed = self.concealed.saturating_add(concealed as u64);
    }

    /// Counts several ticks and the frames concealed in them.
    pub fn count_ticks(&mut self, count: u64, concealed: u64)
        ensures counted { (t : Tally) (frames : ℕ) → self.old ≡ counts_of t → concealed ≡ capped frames →
            self.new ≡ counts_of (record t { ticks = t.ticks + count; concealed = t.concealed + frames }) }
    {
        self.ticks = self.ticks.saturating_add(count);
        self.concealed = self.concealed.saturating_add(concealed);
    }
}

/// Returns the index of the counter for frames placed with this result.
fn placed_counter(placed: Placed) -> usize
    ensures value { result ≡ result_place (takens.Placed placed) }
    ensures below { result < 5 }
{
    match placed {
        Placed::Started => 0,
        Placed::Placed => 1,
        Placed::Pushed => 2,
        Placed::Again => 3,
        Placed::Late => 4,
    }
}

/// Returns the index of the counter for datagrams dropped for this reason.
fn cause_counter(cause: DropCause) -> usize
    ensures value { 5 + result ≡ result_place (takens.Dropped cause) }
    ensures below { result < 6 }
{
    match cause {
        DropCause::NoTermination => 0,
        DropCause::Stray => 1,
        DropCause::NoLocal => 2,
        DropCause::Rtp(_) => 3,
        DropCause::PayloadType => 4,
        DropCause::Length => 5,
    }
}
