ghost use Rattle.std.specs.Prelude.{◌≤◌, [], ◌∷◌, length, is_ok, IfOk, IfSome};
ghost use Rattle.mg_ports.specs.declared.call.Call.TheVariants.{Receive, Send, BeginTick};
ghost use Rattle.mg_ports.specs.Calls.{receipt_of};
ghost use Rattle.mg_host.specs.declared.host_call.HostCall.TheVariants.{Bind, BindAlso, OnPorts, NotReported, NotSent};
ghost use Rattle.mg_host.specs.HostCalls.{Grows, Polls};

use crate::tells::Tells;
use crate::unsent::Unsent;
use mg_ports::{Peer, PortFault, Timing};
use std::io;

/// A gateway's numbered UDP sockets. Each bind adds the next socket. Socket 0 is the control socket, and socket s + 1
/// is the media socket of slot s in the pool. Socket 0 can consist of several control sockets. No call blocks.
///
/// If a session makes a decision without asking the host, a separate call logs the decision, so that the log has
/// everything in order. A host without a log ignores these calls.
pub trait Sockets: Tells {
    /// Binds the next socket.
    fn bind(&mut self, address: [u8; 4], port: u16) -> io::Result<()>
        ensures logged { Grows (Self.calls self.old) (Self.calls self.new) (Bind address port (is_ok result) ∷ []) };

    /// Adds a control socket. From then on, socket 0 also receives the datagrams that arrive there. A datagram that is
    /// sent from socket 0 leaves from the control socket that received the last datagram or, before any was received,
    /// from the one that was bound first.
    fn bind_also(&mut self, address: [u8; 4], port: u16) -> io::Result<()>
        ensures logged { Grows (Self.calls self.old) (Self.calls self.new) (BindAlso address port (is_ok result) ∷ []) };

    /// Asks at which sockets a datagram has arrived since the last call, and marks these sockets. The other marks are
    /// unchanged.
    fn poll(&mut self, marks: &mut [bool]) -> io::Result<()>
        ensures logged { Polls (Self.calls self.old) (Self.calls self.new) marks.old marks.new result };

    /// Receives a datagram if one is waiting.
    ///
    /// Stores the datagram at the front of the buffer, and returns its length and its source. Returns `None` if no
    /// datagram is waiting. A datagram that is longer than the buffer is truncated.
    fn receive(
        &mut self,
        socket: usize,
        buffer: &mut [u8],
    ) -> Result<Option<(usize, Peer)>, PortFault>
        ensures within { IfOk result (λ received. IfSome received (λ d. d.0 ≤ length buffer.new)) }
        ensures logged { Grows (Self.calls self.old) (Self.calls self.new)
            (OnPorts (Receive socket (receipt_of result buffer.new)) ∷ []) };

    /// Sends a datagram.
    fn send(&mut self, socket: usize, to: Peer, bytes: &[u8]) -> Result<(), PortFault>
        ensures logged { Grows (Self.calls self.old) (Self.calls self.new) (OnPorts (Send socket to bytes.now) ∷ []) };

    /// Logs that a session didn't receive from a socket, because no datagram could be waiting there.
    fn log_unreported(&mut self, socket: usize)
        ensures logged { Grows (Self.calls self.old) (Self.calls self.new) (NotReported socket ∷ []) };

    /// Logs that a session didn't send a datagram.
    fn log_unsent(&mut self, socket: usize, to: Peer, bytes: &[u8], cause: Unsent)
        ensures logged { Grows (Self.calls self.old) (Self.calls self.new) (NotSent socket to bytes.now cause ∷ []) };

    /// Logs that a session began a tick, whose packets are sent next.
    fn log_tick(&mut self, timing: Timing)
        ensures logged { Grows (Self.calls self.old) (Self.calls self.new) (OnPorts (BeginTick timing) ∷ []) };
}
