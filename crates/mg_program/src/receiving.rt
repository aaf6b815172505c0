ghost use Rattle.std.specs.Prelude.{◌≡◌, ◌≤◌, Bool, true, false, [], ◌∷◌, length, slice_index_or, slice_set, IfOk, IfSome};
ghost use Rattle.mg_clock.specs.declared.timing.Timing.{Timing};
ghost use Rattle.mg_ports.specs.declared.call.Call.TheVariants.{Receive};
ghost use Rattle.mg_ports.specs.Calls.{receipt_of};
ghost use Rattle.mg_program.specs.Decisions.{all_ready, knows};
ghost use Rattle.mg_program.specs.aids.Doing.{DoesCalls};

use mg_core::{Peer, TERMINATION_LIMIT};
use mg_host::Sockets;
use mg_ports::PortFault;

/// The maximum number of sockets that a session uses: one control socket, and one media socket for each termination.
pub const SOCKETS: usize = TERMINATION_LIMIT + 1;

/// The sockets at which a datagram may be waiting.
///
/// When a datagram arrives, its socket is reported once. So a datagram may be waiting there from then on, until a
/// receive finds no datagram. Nothing else clears the socket's entry: neither a limit on datagrams per poll nor a
/// failed receive.
pub(crate) type Ready = [bool; SOCKETS];

/// A datagram may be waiting at every socket.
pub(crate) const ALL_READY: Ready = [true; SOCKETS];

/// Returns whether a datagram may be waiting at a socket.
fn is_ready(ready: &Ready, socket: usize) -> bool
    ensures value { result ≡ slice_index_or ready.now socket true }
{
    ready.get(socket).copied().unwrap_or(true)
}

/// Records that a receive from a socket found nothing.
fn clear(ready: &mut Ready, socket: usize)
    ensures value { ready.new ≡ slice_set ready.old socket false }
{
    if socket < SOCKETS {
        ready[socket] = false;
    }
}

/// Records that a datagram may be waiting at every socket.
fn set_all(ready: &mut Ready)
    ensures value { ready.new ≡ all_ready }
{
    *ready = ALL_READY;
}

/// Asks the host at which sockets datagrams have arrived. If the host can't say, a datagram may be waiting at every
/// socket.
fn ask<H: Sockets>(host: &mut H, ready: &mut Ready)
    ensures done { (timing : Timing) → DoesCalls (H.calls host.old) (H.calls host.new) []
        (knows timing ready.old false) (knows timing ready.new true) }
{
    if host.poll(ready).is_err() {
        set_all(ready);
    }
}

/// Receives from a socket.
fn receive_from<H: Sockets>(
    host: &mut H,
    ready: &mut Ready,
    socket: usize,
    buffer: &mut [u8],
) -> Result<Option<(usize, Peer)>, PortFault>
    ensures within { IfOk result (λ received. IfSome received (λ d. d.0 ≤ length buffer.new)) }
    ensures done { (timing : Timing) (asked : Bool) → (socket ≡ 0 → asked ≡ true) →
        DoesCalls (H.calls host.old) (H.calls host.new) (Receive socket (receipt_of result buffer.new) ∷ [])
        (knows timing ready.old asked) (knows timing ready.new false) }
{
    let answer = host.receive(socket, buffer);
    if let Ok(None) = answer {
        clear(ready, socket);
    }
    answer
}

/// Receives from a socket, or returns `None` if no datagram can be waiting there.
fn receive_if_ready<H: Sockets>(
    host: &mut H,
    ready: &mut Ready,
    socket: usize,
    buffer: &mut [u8],
) -> Result<Option<(usize, Peer)>, PortFault>
    ensures within { IfOk result (λ received. IfSome received (λ d. d.0 ≤ length buffer.new)) }
    ensures done { (timing : Timing) (asked : Bool) → (socket ≡ 0 → asked ≡ true) →
        DoesCalls (H.calls host.old) (H.calls host.new) (Receive socket (receipt_of result buffer.new) ∷ [])
        (knows timing ready.old asked) (knows timing ready.new false) }
{
    if is_ready(ready, socket) {
        return receive_from(host, ready, socket, buffer);
    }
    host.log_unreported(socket);
    Ok(None)
}

/// Receives from a socket, or returns `None` if no datagram can be waiting there. For the control socket, first asks
/// the host at which sockets datagrams have arrived.
pub(crate) fn receive_reported<H: Sockets>(
    host: &mut H,
    ready: &mut Ready,
    socket: usize,
    buffer: &mut [u8],
) -> Result<Option<(usize, Peer)>, PortFault>
    ensures within { IfOk result (λ received. IfSome received (λ d. d.0 ≤ length buffer.new)) }
    ensures done { (timing : Timing) →
        DoesCalls (H.calls host.old) (H.calls host.new) (Receive socket (receipt_of result buffer.new) ∷ [])
        (knows timing ready.old false) (knows timing ready.new false) }
{
    if socket == 0 {
        ask(host, ready);
        return receive_if_ready(host, ready, socket, buffer);
    }
    receive_if_ready(host, ready, socket, buffer)
}
