ghost use Rattle.std.specs.Prelude.{◌≡◌, ◌+◌, ℕ};
ghost use Rattle.mg_core.specs.World.{World, capped, with_control, with_taken, with_tick};
ghost use Rattle.mg_core.specs.aids.Stands.{StandsFor};

use crate::counts::Counts;
use mg_commands::Kept;
use mg_engine::{Engine, Taken};

/// The state that a gateway keeps between events: terminations and contexts, kept replies, and the counts of events.
#[derive(Drop)]
pub struct CoreState {
    pub engine: Engine,
    pub kept: Kept,
    /// The counts of events; `lines`, `sent` and `failed` stay 0.
    pub counts: Counts,
}

impl CoreState {
    /// Counts a control datagram.
    pub fn count_control(&mut self)
        ensures engine { self.new.engine ≡ self.old.engine }
        ensures kept { self.new.kept ≡ self.old.kept }
        ensures counted { (w : World) → StandsFor self.old w → StandsFor self.new (with_control w) }
    {
        self.counts.count_control();
    }

    /// Counts an RTP datagram by its outcome.
    pub fn count_media(&mut self, taken: Taken)
        ensures engine { self.new.engine ≡ self.old.engine }
        ensures kept { self.new.kept ≡ self.old.kept }
        ensures counted { (w : World) → StandsFor self.old w →
            StandsFor self.new (record w { tally = with_taken taken w.tally }) }
    {
        self.counts.count_media(taken);
    }

    /// Counts a tick and the frames concealed in it.
    pub fn count_tick(&mut self, concealed: usize)
        ensures engine { self.new.engine ≡ self.old.engine }
        ensures kept { self.new.kept ≡ self.old.kept }
        ensures counted { (w : World) → StandsFor self.old w →
            StandsFor self.new (record w { tally = with_tick concealed w.tally }) }
    {
        self.counts.count_tick(concealed);
    }

    /// Counts several ticks and the frames concealed in them.
    pub fn count_ticks(&mut self, count: u64, concealed: u64)
        ensures engine { self.new.engine ≡ self.old.engine }
        ensures kept { self.new.kept ≡ self.old.kept }
        ensures counted { (w : World) (frames : ℕ) → StandsFor self.old w → concealed ≡ capped frames →
            StandsFor self.new (record w {
              tally = record w.tally { ticks = w.tally.ticks + count; concealed = w.tally.concealed + frames };
            }) }
    {
        self.counts.count_ticks(count, concealed);
    }
}
