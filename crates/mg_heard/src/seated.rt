ghost use Rattle.std.specs.Prelude.{◌≡◌};
ghost use Rattle.mg_heard.specs.aids.Hearers.{is_same_seated, seated_of};

use crate::party::Party;
use mg_core::Record;

/// The description of a termination in an interval, and the termination's seat in its context.
#[derive(Clone, Copy, Debug, Default, PartialEq, Eq)]
pub(crate) struct Seated {
    pub(crate) party: Party,
    pub(crate) seat: u8,
}

impl Seated {
    pub(crate) fn of(termination: &Record) -> Seated
        ensures value { result ≡ seated_of termination.now }
    {
        Seated {
            party: Party::of(termination),
            seat: termination.seat,
        }
    }

    pub(crate) fn is_same(&self, other: &Seated) -> bool
        ensures value { result ≡ is_same_seated self.now other.now }
    {
        self == other
    }
}
