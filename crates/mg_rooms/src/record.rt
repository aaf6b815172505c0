ghost use Rattle.std.specs.Prelude.{◌≡◌};
ghost use Rattle.mg_rooms.specs.Record.{fresh, at_place};

use crate::place::EntryPlace;
use mg_sdp::Chosen;
use mg_words::{FIRST_DEPTH, Mode};

/// A termination.
#[derive(Clone, Copy, Debug, PartialEq, Eq)]
pub struct Record {
    /// The number. No other termination of the gateway ever has the same number.
    pub number: u32,
    /// The number of its context.
    pub context: u32,
    /// The slot that the termination holds until it is subtracted. It is below the gateway's number of slots.
    pub slot: u8,
    /// The seat that the termination holds while it is in this context. It is below
    /// [`MEMBER_LIMIT`](crate::MEMBER_LIMIT).
    pub seat: u8,
    /// The mode of its stream.
    pub mode: Mode,
    /// The depth of its play list, in frames of 20 ms.
    pub depth: u8,
    /// The media that the gateway receives, at its own address and the termination's port.
    pub local: Option<Chosen>,
    /// The media that the gateway sends, with the destination address and port.
    pub remote: Option<Chosen>,
}

impl Record {
    /// Returns a new termination.
    pub(crate) fn fresh(number: u32, slot: u8, place: EntryPlace) -> Record
        ensures value { result ≡ fresh number slot place }
    {
        Record {
            number,
            context: place.context,
            slot,
            seat: place.seat,
            mode: Mode::Inactive,
            depth: FIRST_DEPTH as u8,
            local: None,
            remote: None,
        }
    }

    /// Returns the termination, moved to another place.
    pub(crate) fn at_place(self, place: EntryPlace) -> Record
        ensures value { result ≡ at_place self place }
    {
        Record {
            context: place.context,
            seat: place.seat,
            ..self
        }
    }
}
