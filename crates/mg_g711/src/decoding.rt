//! Decoding, sixteen bytes at a time.
//!
//! A level is `16 * exponent + mantissa`. A magnitude is a small number times a power of two, minus the bias in mu-law.
//! A vector lookup, which is one processor instruction, finds the power.

ghost use Rattle.std.specs.Prelude.{◌≡◌, ℕ, ◌+◌, ◌<◌, ◌≤◌, length, slice_index, pos};
ghost use Rattle.mg_g711.specs.Law.{sample_of};
ghost use Rattle.mg_g711.specs.aids.Chunks.{WritesChunk};

use crate::law::Law;
use crate::sample::BIAS;
use std::simd::prelude::*;

/// How many bytes are decoded at a time.
pub const LANES: usize = 16;

// For each exponent, the factor of mu-law. The last eight are not used.
const MU_FACTORS: [u8; LANES] = [1, 2, 4, 8, 16, 32, 64, 128, 0, 0, 0, 0, 0, 0, 0, 0];

// What mu-law adds to eight times the mantissa before multiplying.
const MU_START: u8 = BIAS as u8;

// For each exponent, what A-law adds to eight times the mantissa before multiplying.
const A_STARTS: [u8; LANES] = [4, 132, 132, 132, 132, 132, 132, 132, 0, 0, 0, 0, 0, 0, 0, 0];

const A_FACTORS: [u8; LANES] = [2, 2, 4, 8, 16, 32, 64, 128, 0, 0, 0, 0, 0, 0, 0, 0];

/// Decodes 16 bytes into `samples`, starting at index `at`.
pub fn decode_chunk(law: Law, chunk: &[u8; LANES], samples: &mut [i16], at: usize)
    requires within { at + LANES ≤ length samples.old }
    requires bytes { (j : ℕ) → j < LANES → slice_index chunk.now j < 256 }
    ensures { WritesChunk LANES samples.old samples.new at (λ j.
        sample_of law (slice_index chunk.now j)) }
{
    match law {
        Law::Mu => decode_mu(chunk, samples, at),
        Law::A => decode_a(chunk, samples, at),
    }
}

/// Decodes 16 bytes of mu-law into `samples`, starting at index `at`.
fn decode_mu(chunk: &[u8; LANES], samples: &mut [i16], at: usize)
    requires within { at + LANES ≤ length samples.old }
    requires bytes { (j : ℕ) → j < LANES → slice_index chunk.now j < 256 }
    ensures { WritesChunk LANES samples.old samples.new at (λ j.
        sample_of Law.Mu (slice_index chunk.now j)) }
{
    let turned = u8x16::from_array(*chunk) ^ u8x16::splat(0xff);
    let exponents = (turned >> u8x16::splat(4)) & u8x16::splat(7);
    let factors = u8x16::from_array(MU_FACTORS).swizzle_dyn(exponents);
    let starts = ((turned & u8x16::splat(15)) << u8x16::splat(3)) + u8x16::splat(MU_START);
    let biased = starts.cast::<u16>() * factors.cast::<u16>();
    let magnitudes = (biased - u16x16::splat(BIAS)).cast::<i16>();
    let are_positive = turned.cast::<u16>().simd_lt(u16x16::splat(128));
    are_positive
        .select(magnitudes, magnitudes * i16x16::splat(-1))
        .copy_to_slice(&mut samples[at..]);
}

/// Decodes 16 bytes of A-law into `samples`, starting at index `at`. In addition to the bits that A-law inverts, this
/// inverts the sign bit, so that it is set if the sample is negative.
fn decode_a(chunk: &[u8; LANES], samples: &mut [i16], at: usize)
    requires within { at + LANES ≤ length samples.old }
    requires bytes { (j : ℕ) → j < LANES → slice_index chunk.now j < 256 }
    ensures { WritesChunk LANES samples.old samples.new at (λ j.
        sample_of Law.A (slice_index chunk.now j)) }
{
    let turned = u8x16::from_array(*chunk) ^ u8x16::splat(0xd5);
    let exponents = (turned >> u8x16::splat(4)) & u8x16::splat(7);
    let factors = u8x16::from_array(A_FACTORS).swizzle_dyn(exponents);
    let first = u8x16::from_array(A_STARTS).swizzle_dyn(exponents);
    let starts = ((turned & u8x16::splat(15)) << u8x16::splat(3)) + first;
    let magnitudes = (starts.cast::<u16>() * factors.cast::<u16>()).cast::<i16>();
    let are_positive = turned.cast::<u16>().simd_lt(u16x16::splat(128));
    are_positive
        .select(magnitudes, magnitudes * i16x16::splat(-1))
        .copy_to_slice(&mut samples[at..]);
}
