//! Tests of reading and writing packets.

use mg_rtp::{Header, PAYLOAD_LEN, Packet, RtpFault, read, write};
use std::test::Fail;

// A packet with padding, an extension of one word, and one contributing source.
const WHOLE: [u8; 28] = [
    0xb1, 0x08, 0x00, 0x05, 0x00, 0x00, 0x00, 0xa0, 0x00, 0x00, 0x00, 0x63, 0x00, 0x00, 0x00, 0x2a,
    0xbe, 0xde, 0x00, 0x01, 0xaa, 0xbb, 0xcc, 0xdd, 0xd5, 0xd5, 0x00, 0x02,
];

fn passes_over_each_part() -> bool {
    let header = Header {
        marker: false,
        payload_type: 8,
        sequence: 5,
        timestamp: 160,
        ssrc: 99,
    };
    let payload = [0xd5, 0xd5];
    let packet = Packet {
        header,
        payload: &payload,
    };
    read(&WHOLE) == Ok(packet)
}

/// Reads the packet with this first byte and this last byte. Returns whether its payload is not empty, or its fault.
fn has_payload(first: u8, last: u8) -> Result<bool, RtpFault> {
    let mut bytes = WHOLE;
    bytes[0] = first;
    bytes[27] = last;
    let packet = read(&bytes)?;
    Ok(!packet.payload.is_empty())
}

/// Returns whether the last byte counts the padding.
fn counts_padding() -> bool {
    has_payload(0xb1, 2) == Ok(true)
        && has_payload(0xb1, 4) == Ok(false)
        && has_payload(0xb1, 5) == Err(RtpFault::Padding)
}

fn refuses_other_versions() -> bool {
    let other = Err(RtpFault::Version);
    has_payload(0x31, 2) == other && has_payload(0x71, 2) == other && has_payload(0xf1, 2) == other
}

/// Returns the length of the first prefix of the packet that does not have the expected fault, or 28 if all prefixes
/// have it.
fn first_wrong_front() -> usize {
    for n in 0..28 {
        let fault = match n {
            0..=15 => RtpFault::Short,
            16..=23 => RtpFault::Extension,
            _ => RtpFault::Padding,
        };
        if read(&WHOLE[..n]) != Err(fault) {
            return n;
        }
    }
    28
}

fn reads_what_is_written() -> bool {
    let header = Header {
        marker: true,
        payload_type: 0,
        sequence: 0,
        timestamp: 0,
        ssrc: 1,
    };
    let payload = [0xffu8; PAYLOAD_LEN];
    let bytes = write(header, &payload);
    let head = [0x80u8, 0x80, 0, 0, 0, 0, 0, 0, 0, 0, 0, 1];
    let packet = Packet {
        header,
        payload: &payload,
    };
    &bytes[..12] == head.as_slice()
        && &bytes[12..] == payload.as_slice()
        && read(&bytes) == Ok(packet)
}

#[test]
fn packets(rt: HostRuntime) {
    assert!(rt; passes_over_each_part());
    assert!(rt; counts_padding());
    assert!(rt; refuses_other_versions());
    assert!(rt; first_wrong_front() == 28);
    assert!(rt; reads_what_is_written());
}

#[test]
fn a_fault_is_printed(rt: HostRuntime) -> Result<(), Fail> {
    let text = RtpFault::Version.to_string(rt.alloc())?;
    assert!(rt; text.as_str() == "the version is not 2");
    Ok(())
}
