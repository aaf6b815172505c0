ghost use Rattle.std.specs.Prelude.{◌≡◌, ℕ, ◌≤◌, [], ◌∷◌, length, List, Option, None, IfOk, IfSome, OnErr};
ghost use Rattle.mg_ports.specs.declared.call.Call.{Call};
ghost use Rattle.mg_ports.specs.declared.call.Call.TheVariants.{Receive, Send, BeginTick, Append, Renew};
ghost use Rattle.mg_journal.specs.Text.{EndsInLineFeed};
ghost use Rattle.mg_journal.specs.Journal.{JournalState, no_journal};
ghost use Rattle.mg_ports.specs.Calls.{Grows, IsCounted, receipt_of};
ghost use Rattle.mg_ports.specs.Journaled.{AppendsDated, RenewsDated};

use crate::batch::Batch;
use crate::failure_causes::FailureCauses;
use crate::port_fault::PortFault;
use mg_clock::Timing;
use mg_journal::{AppendFault, Durability};
use mg_words::Peer;

/// A gateway's numbered UDP sockets, and its journal. Socket 0 is the control socket, and socket s + 1 is the media
/// socket of slot s in the pool.
pub trait Ports {
    /// All calls so far, if they are known.
    ghost calls: { Self → Option (List Call) } = { λ _. None };

    /// The number of failed receives and sends.
    ghost failed: { Self → ℕ };

    /// The known state of the journal.
    ghost journal: { Self → JournalState } = { λ _. no_journal };

    /// Receives a datagram if one is waiting.
    ///
    /// Stores the datagram at the front of the buffer, and returns its length and its source. Returns `None` if no
    /// datagram is waiting. Never blocks. A datagram that is longer than the buffer is truncated.
    fn receive(
        &mut self,
        socket: usize,
        buffer: &mut [u8],
    ) -> Result<Option<(usize, Peer)>, PortFault>
        ensures within { IfOk result (λ received. IfSome received (λ d. d.0 ≤ length buffer.new)) }
        ensures logged { Grows (calls self.old) (calls self.new) (Receive socket (receipt_of result buffer.new) ∷ []) }
        ensures fault { OnErr result (IsCounted (failed self.old) (failed self.new)) }
        ensures journal { journal self.new ≡ journal self.old };

    /// Sends a datagram. Never blocks.
    fn send(&mut self, socket: usize, to: Peer, bytes: &[u8]) -> Result<(), PortFault>
        ensures logged { Grows (calls self.old) (calls self.new) (Send socket to bytes.now ∷ []) }
        ensures fault { OnErr result (IsCounted (failed self.old) (failed self.new)) }
        ensures journal { journal self.new ≡ journal self.old };

    /// Begins a tick, whose packets are sent next. If the tick is late, ports on a network fail every send from a media
    /// socket until the next tick.
    fn begin_tick(&mut self, timing: Timing)
        ensures logged { Grows (calls self.old) (calls self.new) (BeginTick timing ∷ []) }
        ensures journal { journal self.new ≡ journal self.old };

    /// Appends all of the lines of a batch to the journal or none, unless the journal breaks. The last line must end in
    /// a line feed. A seal and a comment with the time of day may precede the lines. Fails if there is no journal.
    fn append(
        &mut self,
        batch: Batch,
        lines: &[u8],
        durability: Durability,
    ) -> Result<(), AppendFault>
        requires line_feed { EndsInLineFeed lines.now }
        ensures logged { Grows (calls self.old) (calls self.new) (Append lines.now durability result ∷ []) }
        ensures journal { AppendsDated lines.now durability (journal self.old) (journal self.new) result };

    /// Replaces the journal by one with this text, which ends in a line feed. After the text comes a line with the hash
    /// of the old journal's last part, and perhaps a comment with the time of day. If that fails, the journal is
    /// unchanged. Fails if there is no journal.
    fn renew(&mut self, text: &mut Vec<u8>, durability: Durability) -> Result<(), AppendFault>
        requires line_feed { EndsInLineFeed text.old.items }
        ensures logged { Grows (calls self.old) (calls self.new) (Renew text.old.items durability result ∷ []) }
        ensures journal { RenewsDated text.old.items durability (journal self.old) (journal self.new) result };

    /// Returns whether the journal is due to be renewed. Asked after each tick.
    fn is_renewal_due(&mut self) -> bool
        ensures calls { calls self.new ≡ calls self.old }
        ensures journal { journal self.new ≡ journal self.old };

    /// Returns the number of failed receives and sends. A count that reaches its maximum stays there.
    fn failures(&self) -> u64
        ensures value { result ≡ failed self.now };

    /// Returns the numbers of failed receives and sends by cause, if these ports count causes; otherwise all counts are
    /// 0.
    fn failure_causes(&self) -> FailureCauses;
}
