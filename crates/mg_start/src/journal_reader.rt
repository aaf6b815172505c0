ghost use Rattle.std.specs.Prelude.{◌≡◌, None};

use mg_core::{Core, Event, Follower, Stopped};
use mg_dates::Timeline;
use mg_fence::FenceReader;
use std::alloc::Global;

/// Reads the timeline of a journal, and the number that its messages have reached. Stops if memory runs out.
#[derive(Drop)]
pub(crate) struct JournalReader {
    pub timeline: Timeline,
    pub fence: FenceReader,
}

impl JournalReader {
    /// Creates a reader, at the start of a journal.
    pub(crate) fn new(alloc: Global) -> Self
        ensures times { result.timeline ≡ record { start = None; ticks = 0 } }
        ensures reached { result.fence.reached ≡ 0 }
    {
        JournalReader {
            timeline: Timeline::new(),
            fence: FenceReader::new(alloc),
        }
    }
}

impl Follower for JournalReader {
    ghost use Rattle.std.specs.Prelude.{◌≡◌, reverse, true};
    ghost use Rattle.mg_dates.specs.Times.{timeline_of};
    ghost use Rattle.mg_fence.specs.Reached.{Reaches};

    ghost may_stop = { true };

    ghost follows = { λ start r base notes.
        (r.timeline ≡ timeline_of (reverse notes)) × Reaches 0 notes r.fence.reached };

    fn comment(&mut self, number: u64, line: &[u8]) -> Result<(), Stopped> {
        self.timeline.comment(number, line)?;
        self.fence.comment(number, line)
    }

    fn datagram(&mut self, event: &Event, core: &Core) -> Result<(), Stopped> {
        self.timeline.datagram(event, core)?;
        self.fence.datagram(event, core)
    }

    fn ticks(&mut self, core: &Core, count: u64) -> Result<(), Stopped> {
        self.timeline.ticks(core, count)?;
        self.fence.ticks(core, count)
    }
}
