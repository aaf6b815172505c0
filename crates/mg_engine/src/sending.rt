//! The destinations and payload types of the packets that terminations send in a tick.

ghost use Rattle.std.specs.Prelude.{◌≡◌, ◌<◌};
ghost use Rattle.mg_engine.specs.Mix.{is_loopback};
ghost use Rattle.mg_engine.specs.Tick.{sends, sent_to, type_of};
ghost use Rattle.mg_engine.specs.aids.Sending.{slot_sends};

use mg_g711::Law;
use mg_rooms::{Mode, Record, Rooms};
use mg_sdp::Chosen;

/// Returns whether a termination in this mode sends to its peer.
fn sends(mode: Mode) -> bool
    ensures value { result ≡ sends mode }
{
    match mode {
        Mode::SendReceive | Mode::SendOnly | Mode::Loopback => true,
        Mode::Inactive | Mode::ReceiveOnly => false,
    }
}

/// Returns whether a termination in this mode sends back what it receives.
pub fn is_loopback(mode: Mode) -> bool
    ensures value { result ≡ is_loopback mode }
{
    matches!(mode, Mode::Loopback)
}

/// Returns the destination of a termination's packets, or `None` if the termination does not send.
pub fn sent_to(sender: &Record) -> Option<Chosen>
    ensures value { result ≡ sent_to sender.now }
{
    if sends(sender.mode) {
        sender.remote
    } else {
        None
    }
}

/// Returns whether the termination in a slot sends.
pub fn sends_in(rooms: &Rooms, slot: u8) -> bool
    ensures value { result ≡ slot_sends rooms.now slot }
{
    match rooms.held(slot) {
        Some(record) => sent_to(&record).is_some(),
        None => false,
    }
}

/// Returns the payload type of a law (RFC 3551, section 6).
pub fn payload_type(law: Law) -> u8
    ensures value { result ≡ type_of law }
    ensures seven_bits { result < 128 }
{
    match law {
        Law::Mu => 0,
        Law::A => 8,
    }
}
