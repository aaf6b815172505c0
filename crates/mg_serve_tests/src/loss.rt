//! Tests of how lost packets are counted.

use crate::equality::assert_equal;
use mg_monitor::Loss;
use mg_rtp::Header;

/// A step of a test: packets in the order of their arrival, or the expected count so far. The packets belong to stream
/// 7, except the packet of `Other`.
#[derive(Clone, Copy)]
enum Step {
    /// A packet with this sequence number.
    One(u16),
    /// Packets in ascending order: the first sequence number, and the number of packets.
    Up(u16, u16),
    /// Packets in descending order: the first sequence number, and the number of packets.
    Down(u16, u16),
    /// A packet of stream 8 with this sequence number.
    Other(u16),
    /// This many packets have been lost so far.
    Lost(u64),
}

use Step::{Down, Lost, One, Other, Up};

const CASES: [(&str, &[Step]); 7] = [
    ("a whole stream", &[Up(65500, 300), Lost(0)]),
    (
        "a packet is lost when the window has passed it",
        &[
            Up(65530, 3),
            Up(65534, 63),
            Lost(0),
            One(61),
            Lost(1),
            Up(62, 200),
            Lost(1),
        ],
    ),
    (
        "reordered packets are not lost",
        &[
            One(3),
            One(2),
            One(4),
            Down(7, 3),
            One(8),
            One(72),
            One(9),
            Down(71, 62),
            Up(73, 100),
            Lost(0),
        ],
    ),
    (
        "a late packet is lost once",
        &[
            One(1),
            Up(3, 64),
            Lost(1),
            One(2),
            Up(60, 7),
            Up(67, 64),
            Lost(1),
        ],
    ),
    (
        "a long gap is lost",
        &[
            One(100),
            One(601),
            Lost(437),
            Up(602, 63),
            Lost(500),
            One(664 + 2999),
            Lost(500 + 2998 - 63),
        ],
    ),
    (
        "a new stream ends the previous one",
        &[
            One(1),
            One(3),
            One(6),
            Lost(0),
            Other(40000),
            Lost(3),
            Other(43000),
            Other(42899),
            Other(42900),
            Lost(3),
        ],
    ),
    (
        "a packet from before the first is ignored",
        &[One(100), One(99), One(36), One(0), Up(101, 200), Lost(0)],
    ),
];

/// Returns the header of a packet.
fn header(ssrc: u32, sequence: u16) -> Header {
    Header {
        marker: false,
        payload_type: 0,
        sequence,
        timestamp: 0,
        ssrc,
    }
}

/// Counts the packets of a step. If the step has an expected count, returns this count and the actual count.
fn take(loss: &mut Loss, step: Step) -> Option<(u64, u64)> {
    let (first, count, change) = match step {
        One(sequence) => (sequence, 1, 0),
        Up(first, count) => (first, count, 1),
        Down(first, count) => (first, count, u16::MAX),
        Other(sequence) => {
            loss.count(header(8, sequence));
            return None;
        }
        Lost(wanted) => return Some((wanted, loss.lost())),
    };
    for i in 0..count {
        loss.count(header(7, first.wrapping_add(change.wrapping_mul(i))));
    }
    None
}

#[test]
fn counts_lost_packets(rt: HostRuntime) {
    for (name, steps) in CASES {
        let mut loss = Loss::new();
        for step in steps {
            if let Some((wanted, found)) = take(&mut loss, *step) {
                assert_equal(&rt, (name, found), (name, wanted));
            }
        }
    }
}

#[test]
fn counts_packets_by_their_bytes(rt: HostRuntime) {
    let mut loss = Loss::new();
    for sequence in [0, 3, 70] {
        let mut packet = [0; 172];
        packet[0] = 0x80;
        packet[3] = sequence;
        loss.count_packet(&packet);
    }
    assert_equal(&rt, loss.lost(), 2 + 3);
    loss.count_packet(b"x");
    assert_equal(&rt, loss.lost(), 2 + 3);
}
