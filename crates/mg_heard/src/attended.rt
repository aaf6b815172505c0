use crate::changes::only_control_changes_flows;
use crate::roll::{Roll, call_after};
use mg_core::{Core, Event, Follower, Stopped, Watcher};

/// Passes a script to a follower, and records in rolls which talkers and listeners the gateway has had.
#[derive(Drop)]
pub(crate) struct Attended<F: Follower + Drop> {
    pub(crate) follower: F,
    pub(crate) rolls: Vec<Roll>,
}

impl<F: Follower + Drop> Follower for Attended<F> {
    ghost use Rattle.std.specs.Prelude.{true};
    ghost use Rattle.mg_core.specs.Note.{events_in};
    ghost use Rattle.mg_heard.specs.aids.Calling.{AreCalled};

    ghost may_stop = { true };

    ghost follows = { λ start a base notes. F.follows start.follower a.follower base notes
        × AreCalled base (events_in notes) start.rolls.items a.rolls.items };

    fn comment(&mut self, number: u64, line: &[u8]) -> Result<(), Stopped> {
        self.follower.comment(number, line)
    }

    fn datagram(&mut self, event: &Event, core: &Core) -> Result<(), Stopped> {
        call_after(&mut self.rolls, event, core);
        self.follower.datagram(event, core)
    }

    fn ticks(&mut self, core: &Core, count: u64) -> Result<(), Stopped> {
        only_control_changes_flows();
        self.follower.ticks(core, count)
    }
}

impl<F: Watcher + Drop> Watcher for Attended<F> {
    ghost done = { λ a. F.done a.follower };

    fn is_done(&self) -> bool {
        self.follower.is_done()
    }
}
