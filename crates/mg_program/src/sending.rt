ghost use Rattle.std.specs.Prelude.{◌≡◌, ◌↔◌, false, true, [], ◌∷◌, Bool, List, ℕ, MatchOption};
ghost use Rattle.mg_ports.specs.declared.call.Call.TheVariants.{Send};
ghost use Rattle.mg_host.specs.declared.host_call.HostCall.TheVariants.{NotSent, OnPorts};
ghost use Rattle.mg_program.specs.Decisions.{IsUnusable, MayCall, knows};
ghost use Rattle.mg_program.specs.aids.Doing.{DoesCalls};

use crate::send_fault::SendFault;
use mg_core::Peer;
use mg_host::{Sockets, Unsent};
use mg_ports::{FailureCauses, PortFault, Timing};
use mg_service::is_multicast;

/// Returns whether no caller can have this address: it is 0.0.0.0, or a multicast, reserved or broadcast address. The
/// address 0.0.0.0 puts a call on hold; a packet to it would reach this machine itself.
fn is_unusable(address: [u8; 4]) -> bool
    ensures value { (result ≡ true) ↔ IsUnusable address }
{
    address == [0; 4] || is_multicast(address)
}

/// Returns the reason why a datagram isn't sent, or `None` if it is sent. A packet from a media socket is sent only in
/// a tick that is on time, and only to an address that a caller can have.
fn unsent_cause(timing: Timing, socket: usize, to: Peer) -> Option<Unsent>
    ensures value { (ready : List Bool) (bytes : List ℕ) → MatchOption result
        (MayCall (knows timing ready false) (OnPorts (Send socket to bytes)))
        (λ cause. MayCall (knows timing ready false) (NotSent socket to bytes cause)) }
{
    if socket == 0 {
        return None;
    }
    if timing == Timing::Late {
        return Some(Unsent::Late);
    }
    if is_unusable(to.address) {
        return Some(Unsent::Held);
    }
    None
}

/// If a datagram wasn't sent, counts the failure by its cause.
pub(crate) fn count_cause(sent: &Result<(), SendFault>, causes: &mut FailureCauses) {
    match sent {
        Ok(()) => {}
        Err(SendFault::Unsent(Unsent::Late)) => causes.late = causes.late.saturating_add(1),
        Err(SendFault::Unsent(Unsent::Held)) => causes.held = causes.held.saturating_add(1),
        Err(SendFault::Refused) => causes.refused = causes.refused.saturating_add(1),
    }
}

/// Sends a datagram. A packet from a media socket isn't sent if its tick is late or its destination can't be used.
pub(crate) fn send_in_time<H: Sockets>(
    host: &mut H,
    timing: Timing,
    socket: usize,
    to: Peer,
    bytes: &[u8],
) -> Result<(), SendFault>
    ensures done { (ready : List Bool) →
        DoesCalls (H.calls host.old) (H.calls host.new) (Send socket to bytes.now ∷ [])
        (knows timing ready false) (knows timing ready false) }
{
    if let Some(cause) = unsent_cause(timing, socket, to) {
        host.log_unsent(socket, to, bytes, cause);
        return Err(SendFault::Unsent(cause));
    }
    match host.send(socket, to, bytes) {
        Ok(()) => Ok(()),
        Err(PortFault) => Err(SendFault::Refused),
    }
}
