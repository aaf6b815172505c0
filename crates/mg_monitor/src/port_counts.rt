use crate::loss::Loss;
use mg_core::{Counts, DROP_CAUSES, Taken};

/// The events at a media port since the last report.
#[derive(Clone, Copy, Debug, PartialEq, Eq)]
pub struct PortCounts {
    /// RTP datagrams by outcome, and concealed frames.
    pub counts: Counts,
    /// RTP datagrams that were dropped because of their sender.
    pub strangers: u64,
    /// Counts the packets that have been lost since the start.
    loss: Loss,
    /// The number of packets that were lost up to the last report.
    lost_before: u64,
    /// The termination that had the port at the last report, if its caller was expected to send.
    expected: Option<u32>,
    /// The later of two ticks: when a play list last accepted a packet, and when a report first expected the caller to
    /// send.
    heard: u64,
}

impl PortCounts {
    pub fn new() -> Self {
        PortCounts {
            counts: Counts::new(),
            strangers: 0,
            loss: Loss::new(),
            lost_before: 0,
            expected: None,
            heard: 0,
        }
    }

    /// Counts an RTP datagram by its outcome. `ticks` is the number of ticks so far.
    pub fn count(&mut self, bytes: &[u8], taken: Taken, ticks: u64) {
        self.counts.count_media(taken);
        if let Taken::Placed(_) = taken {
            self.heard = ticks;
            self.loss.count_packet(bytes);
        }
    }

    /// Counts an RTP datagram that was dropped because of its sender.
    pub fn count_stranger(&mut self) {
        self.strangers = self.strangers.saturating_add(1);
    }

    /// Counts a missing frame that is replaced by the previous frame.
    pub fn count_concealed(&mut self) {
        self.counts.concealed = self.counts.concealed.saturating_add(1);
    }

    /// Returns the number of packets that have been found to be lost since the last report.
    pub fn lost(&self) -> u64 {
        self.loss.lost().saturating_sub(self.lost_before)
    }

    /// Returns for how many ticks a caller who is expected to send has been silent, or 0 if nobody is expected to send.
    ///
    /// `expected` is the termination whose caller should be sending. The silence starts at the later of two moments:
    /// the last accepted packet, and the first report at which this caller was expected to send.
    pub fn silent_ticks(&mut self, expected: Option<u32>, ticks: u64) -> u64 {
        if self.expected != expected {
            self.expected = expected;
            self.heard = ticks;
        }
        match expected {
            Some(_) => ticks.saturating_sub(self.heard),
            None => 0,
        }
    }

    /// Returns whether the caller would sound bad, or somebody else sent packets to the port. A caller sounds bad if
    /// packets were lost, dropped, late, too early or duplicated, if frames were concealed, or if the play list
    /// restarted.
    pub fn has_trouble(&self) -> bool {
        let [started, _, pushed, again, late] = self.counts.placed;
        started > 1
            || pushed > 0
            || again > 0
            || late > 0
            || self.lost() > 0
            || self.counts.concealed > 0
            || self.counts.dropped != [0; DROP_CAUSES]
            || self.strangers > 0
    }

    /// Resets the counts after a report.
    pub fn clear(&mut self) {
        self.counts = Counts::new();
        self.strangers = 0;
        self.lost_before = self.loss.lost();
    }
}
