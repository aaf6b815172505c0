use crate::loss::Loss;
use mg_core::Taken;

/// Ticks per second.
const TICKS: u64 = 50;

/// The events at a media port since the start.
#[derive(Clone, Copy, Debug, PartialEq, Eq)]
pub struct PortTotals {
    /// RTP datagrams that arrived from admitted senders.
    pub packets: u64,
    /// Missing frames that were replaced by the previous frame.
    pub concealed: u64,
    pub loss: Loss,
    /// The number of ticks that had passed when a play list last accepted a packet, or `None` if no packet was
    /// accepted.
    heard: Option<u64>,
}

impl PortTotals {
    pub fn new() -> Self {
        PortTotals {
            packets: 0,
            concealed: 0,
            loss: Loss::new(),
            heard: None,
        }
    }

    /// Counts an RTP datagram by its outcome. `ticks` is the number of ticks so far.
    pub fn count(&mut self, bytes: &[u8], taken: Taken, ticks: u64) {
        self.packets = self.packets.saturating_add(1);
        if let Taken::Placed(_) = taken {
            self.heard = Some(ticks);
            self.loss.count_packet(bytes);
        }
    }

    /// Counts a missing frame that is replaced by the previous frame.
    pub fn count_concealed(&mut self) {
        self.concealed = self.concealed.saturating_add(1);
    }

    /// Returns the number of ticks since the port last accepted a packet, or since the start.
    pub fn silent_ticks(&self, ticks: u64) -> u64 {
        ticks.saturating_sub(self.heard.unwrap_or(0))
    }

    /// Returns whether a packet has been accepted within the last second.
    pub fn is_sending(&self, ticks: u64) -> bool {
        self.heard.is_some() && self.silent_ticks(ticks) < TICKS
    }
}
