ghost use Rattle.std.specs.Prelude.{◌≡◌, ◌≤◌, All, Some, length};
ghost use Rattle.mg_rooms.specs.Consistent.{IsConsistent};
ghost use Rattle.mg_rooms.specs.Registry.{record_at};
ghost use Rattle.mg_words.specs.Limits.{member_limit};
ghost use Rattle.mg_core.specs.World.{World};
ghost use Rattle.mg_core.specs.aids.Stands.{StandsFor};
ghost use Rattle.mg_heard.specs.aids.Hearers.{flows_heard, is_heard, seated_of, seats_of, AreHearers, AreRising, HearsTalkers};

use crate::seated::Seated;
use arrayvec::ArrayVec;
use mg_core::{Core, Record, TERMINATION_LIMIT};
use mg_topology::mask::{self, Mask, SEATS};

/// A termination, and the talkers whose speech flows to it.
#[derive(Clone, Copy, Debug, Default, PartialEq, Eq)]
pub(crate) struct Hearer {
    pub(crate) seated: Seated,
    /// The seats of the talkers, in the termination's context.
    pub(crate) talkers: Mask,
}

impl Hearer {
    fn of(core: &Core, termination: &Record) -> Hearer
        requires there { record_at core.now.state.engine.rooms termination.now.number ≡ Some termination.now }
        ensures seated { result.seated ≡ seated_of termination.now }
        ensures talkers { (w : World) → StandsFor core.now.state w → HearsTalkers w.gateway result }
    {
        Hearer {
            seated: Seated::of(termination),
            talkers: core.talkers(termination),
        }
    }

    /// Returns whether a talker's speech flows to this termination.
    pub(crate) fn hears(&self, talker: &Seated) -> bool
        ensures value { result ≡ is_heard self.now talker.now }
    {
        let seat = usize::from(talker.seat);
        talker.party.context == self.seated.party.context
            && seat < SEATS
            && mask::has_seat(self.talkers, seat)
    }
}

/// Returns the terminations of a core, in order of their numbers.
pub(crate) fn hearers_of(core: &Core) -> ArrayVec<Hearer, TERMINATION_LIMIT>
    ensures many { length result.items ≤ TERMINATION_LIMIT }
    ensures few { All (λ h. length (flows_heard (seats_of result.items) h) ≤ member_limit) result.items }
    ensures rising { AreRising result.items }
    ensures consistent { IsConsistent core.now.state.engine.rooms }
    ensures value { (w : World) → StandsFor core.now.state w → AreHearers w.gateway result.items }
{
    let mut hearers = ArrayVec::new();
    for place in 0..core.terminations() {
        let termination = core.termination(place);
        let _ = hearers.try_push(Hearer::of(core, &termination));
    }
    hearers
}
