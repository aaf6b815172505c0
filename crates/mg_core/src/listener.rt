ghost use Rattle.std.specs.Prelude.{◌≡◌, ◌<◌, [], Some, filter};
ghost use Rattle.mg_rooms.specs.Registry.{record_at};
ghost use Rattle.mg_engine.specs.Flow.{flow};
ghost use Rattle.mg_engine.specs.Gateway.{numbers_of};
ghost use Rattle.mg_core.specs.Flows.{listener_of};
ghost use Rattle.mg_core.specs.World.{World};
ghost use Rattle.mg_core.specs.aids.Stands.{StandsFor};

use crate::machine::Core;
use arrayvec::ArrayVec;
use mg_engine::Record;
use mg_rooms::MEMBER_LIMIT;
use mg_words::Mode;
use std::marker::Model;

/// A termination at one moment, with the talkers whose speech flows to it.
#[derive(Drop)]
pub struct KeptListener {
    pub number: u32,
    pub context: u32,
    /// The UDP port that the termination receives on.
    pub port: u16,
    pub mode: Mode,
    /// The talkers, in order of termination number.
    pub talkers: ArrayVec<u32, MEMBER_LIMIT>,
}

impl Model for KeptListener {
    ghost use Rattle.mg_core.specs.Flows.{Listener};

    ghost Value = { Listener };

    ghost view = { λ x. record {
      number = x.number;
      context = x.context;
      port = x.port;
      mode = x.mode;
      talkers = x.talkers.items;
    } };
}

impl KeptListener {
    /// Returns an empty listener, which doesn't belong to any termination.
    pub fn new() -> Self
        ensures value { result ≡ record { number = 0; context = 0; port = 0; mode = Mode.Inactive; talkers = [] } }
    {
        KeptListener {
            number: 0,
            context: 0,
            port: 0,
            mode: Mode::Inactive,
            talkers: ArrayVec::new(),
        }
    }

    /// Stores the current state of a core's termination.
    pub fn set(&mut self, core: &Core, termination: &Record)
        requires slot { termination.now.slot < core.now.state.engine.rooms.limits.slots }
        requires there { record_at core.now.state.engine.rooms termination.now.number ≡ Some termination.now }
        ensures value { (w : World) → StandsFor core.now.state w → self.new ≡ listener_of w.gateway termination.now }
    {
        self.number = termination.number;
        self.context = termination.context;
        self.port = core.port(termination.slot);
        self.mode = termination.mode;
        self.talkers = talkers_of(core, termination);
    }
}

/// Returns the talkers whose speech flows to a listener. They are members of the listener's context, so there is room
/// for all of them.
fn talkers_of(core: &Core, listener: &Record) -> ArrayVec<u32, MEMBER_LIMIT>
    requires there { record_at core.now.state.engine.rooms listener.now.number ≡ Some listener.now }
    ensures value { (w : World) → StandsFor core.now.state w →
        result.items ≡ filter (λ n. flow w.gateway n listener.now.number) (numbers_of w.gateway) }
{
    let mut talkers = ArrayVec::new();
    for place in 0..core.terminations() {
        let talker = core.termination(place);
        if talker.context != listener.context {
            continue;
        }
        if !core.flow(talker.number, listener.number) {
            continue;
        }
        let _ = talkers.try_push(talker.number);
    }
    talkers
}
