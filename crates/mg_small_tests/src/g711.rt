//! Tests of samples, bytes and frames of both laws.

use crate::equality::assert_equal;
use mg_g711::{Law, decode, decode_frame, encode, encode_frame, halve_frame};

const ENCODED: [(Law, i16, u8); 17] = [
    (Law::Mu, 0, 0xff),
    (Law::Mu, -1, 0x7f),
    (Law::Mu, 3, 0xff),
    (Law::Mu, 4, 0xfe),
    (Law::Mu, -4, 0x7e),
    (Law::Mu, 123, 0xf0),
    (Law::Mu, 124, 0xef),
    (Law::Mu, 32767, 0x80),
    (Law::Mu, -32768, 0x00),
    (Law::A, 0, 0xd5),
    (Law::A, -1, 0x55),
    (Law::A, 15, 0xd5),
    (Law::A, 16, 0xd4),
    (Law::A, 255, 0xda),
    (Law::A, 256, 0xc5),
    (Law::A, 32767, 0xaa),
    (Law::A, -32768, 0x2a),
];

const DECODED: [(Law, u8, i16); 6] = [
    (Law::Mu, 0x7f, 0),
    (Law::Mu, 0x80, 32124),
    (Law::Mu, 0x00, -32124),
    (Law::A, 0xd5, 8),
    (Law::A, 0xaa, 32256),
    (Law::A, 0x2a, -32256),
];

#[test]
fn known_samples_and_bytes(rt: HostRuntime) {
    for known in &ENCODED {
        let (law, sample, _) = *known;
        assert_equal(&rt, (law, sample, encode(law, sample)), *known);
    }
    for known in &DECODED {
        let (law, byte, _) = *known;
        assert_equal(&rt, (law, byte, decode(law, byte)), *known);
    }
    assert_equal(&rt, encode_frame(Law::A, &[256; 160]), [0xc5; 160]);
    assert_equal(&rt, decode_frame(Law::Mu, &[0x80; 160]), [32124; 160]);
}

/// Each sample with its half.
const HALVES: [(i16, i16); 6] = [
    (-32768, -16384),
    (-3, -1),
    (-1, 0),
    (1, 0),
    (3, 1),
    (32767, 16383),
];

#[test]
fn frames_are_halved_toward_zero(rt: HostRuntime) {
    for (sample, half) in &HALVES {
        assert_equal(&rt, halve_frame(&[*sample; 160]), [*half; 160]);
    }
}
