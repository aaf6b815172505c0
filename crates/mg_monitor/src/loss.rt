use mg_playout::{MAX_DROPOUT, MAX_MISORDER};
use mg_rtp::{Header, read};

/// The number of sequence numbers that are remembered.
const WINDOW: u16 = 64;

/// Uses sequence numbers to count the RTP packets that were lost (RFC 3550, A.3).
///
/// A packet that hasn't arrived counts as lost as soon as a packet with a sequence number at least 64 higher has
/// arrived, or another stream begins. A stream begins with a packet that has another SSRC, or whose sequence number is
/// far from the newest number: at least [`MAX_DROPOUT`] ahead, or more than [`MAX_MISORDER`] behind. So packets that
/// are reordered within 64 sequence numbers don't count as lost, and the count never falls.
#[derive(Clone, Copy, Debug, PartialEq, Eq)]
pub struct Loss {
    ssrc: u32,
    newest: u16,
    /// A bit for each of the last 64 sequence numbers, set if its packet arrived. Bit 0 is for the newest number.
    arrived: u64,
    /// How many of the last 64 sequence numbers belong to the stream: 0 before the first packet.
    known: u16,
    lost: u64,
}

impl Loss {
    pub fn new() -> Self {
        Loss {
            ssrc: 0,
            newest: 0,
            arrived: 0,
            known: 0,
            lost: 0,
        }
    }

    /// Returns the number of packets lost so far.
    pub fn lost(&self) -> u64 {
        self.lost
    }

    /// Counts an RTP packet that arrived. Bytes that aren't an RTP packet are ignored.
    pub fn count_packet(&mut self, bytes: &[u8]) {
        if let Ok(packet) = read(bytes) {
            self.count(packet.header);
        }
    }

    /// Counts a packet that arrived, given its header.
    pub fn count(&mut self, header: Header) {
        let ahead = header.sequence.wrapping_sub(self.newest).cast_signed();
        let is_new = self.known == 0 || header.ssrc != self.ssrc;
        if is_new || ahead < -MAX_MISORDER || ahead >= MAX_DROPOUT {
            self.restart(header);
        } else if ahead > 0 {
            self.advance(ahead.unsigned_abs());
        } else if ahead.unsigned_abs() < WINDOW {
            self.arrived |= 1 << ahead.unsigned_abs();
        }
    }

    /// Begins a new stream. Packets still missing from the previous stream count as lost.
    fn restart(&mut self, header: Header) {
        for place in 0..self.known {
            self.lose_unless_arrived(place);
        }
        self.ssrc = header.ssrc;
        self.newest = header.sequence;
        self.arrived = 1;
        self.known = 1;
    }

    /// Advances to a packet that is `count` sequence numbers ahead.
    fn advance(&mut self, count: u16) {
        // After 64 steps, no packet is left in the window, and each further step loses one packet.
        let steps = count.min(WINDOW);
        for _ in 0..steps {
            self.step();
        }
        self.lost = self.lost.saturating_add(u64::from(count - steps));
        self.newest = self.newest.wrapping_add(count);
        self.arrived |= 1;
    }

    /// Advances by a sequence number whose packet hasn't arrived.
    fn step(&mut self) {
        if self.known == WINDOW {
            self.lose_unless_arrived(WINDOW - 1);
        } else {
            self.known = self.known.saturating_add(1);
        }
        self.arrived <<= 1;
    }

    /// Counts the packet at an index of the window as lost, unless it has arrived.
    fn lose_unless_arrived(&mut self, place: u16) {
        if place < WINDOW && self.arrived & (1 << place) == 0 {
            self.lost = self.lost.saturating_add(1);
        }
    }
}
