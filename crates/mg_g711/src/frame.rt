ghost use Rattle.std.specs.Prelude.{◌≡◌, map};
ghost use Rattle.mg_g711.specs.Law.{byte_of, sample_of};
ghost use Rattle.mg_g711.specs.Frame.{IsFrame, halved};

use crate::decoding::{LANES, decode_chunk};
use crate::law::Law;
use crate::sample::encode;

/// The number of samples in a frame, which is also the number of bytes in its payload.
pub const FRAME_LEN: usize = 160;

/// 20 ms of one channel: 160 samples at 8000 Hz, earliest first (RFC 3551, sections 4.2 and 6).
///
/// In contracts, a frame appears as a list; `IsFrame` says that the list has 160 samples of 16 bits.
pub type Frame = [i16; FRAME_LEN];

/// Decodes the 160 bytes of a packet's payload, one sample per byte.
pub fn decode_frame(law: Law, bytes: &[u8; FRAME_LEN]) -> Frame
    ensures each { result ≡ map (sample_of law) bytes.now }
    ensures frame { IsFrame result }
{
    let mut samples = [0; FRAME_LEN];
    let (chunks, _) = bytes.as_chunks::<LANES>();
    for (i, chunk) in chunks.iter().enumerate() {
        decode_chunk(law, chunk, &mut samples, LANES * i);
    }
    samples
}

/// Encodes a frame as the 160 bytes of a packet's payload, one byte per sample.
pub fn encode_frame(law: Law, samples: &Frame) -> [u8; FRAME_LEN]
    ensures { result ≡ map (byte_of law) samples.now }
{
    let mut bytes = [0; FRAME_LEN];
    for i in 0..FRAME_LEN {
        bytes[i] = encode(law, samples[i]);
    }
    bytes
}

/// Halves each sample of a frame, rounding toward zero, so that -1 becomes 0.
pub fn halve_frame(samples: &Frame) -> Frame
    ensures each { result ≡ map halved samples.now }
    ensures frame { IsFrame result }
{
    let mut halves = [0; FRAME_LEN];
    for i in 0..FRAME_LEN {
        halves[i] = samples[i] / 2;
    }
    halves
}
