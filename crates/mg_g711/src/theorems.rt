//! Properties of the levels as a whole.
//!
//! The functions do nothing: their contracts are the theorems. A proof that needs a theorem for particular
//! values calls its function.

ghost use Rattle.std.specs.Prelude.{◌≡◌, ◌≢◌, ℕ, ◌+◌, ◌<◌, ◌≤◌, ◌≤ℤ◌, pos, unsigned_abs};
ghost use Rattle.mg_g711.specs.Law.{byte_of, least_of, level_of, magnitude_of, quantized_of, sample_of};
ghost use Rattle.mg_g711.specs.Error.{end_of, error_of, half_step_of};
ghost use Rattle.mg_g711.specs.Frame.{IsFrame};

use crate::frame::{FRAME_LEN, Frame};
use crate::law::Law;

/// A magnitude lies in the last level that starts at or below it, so a border belongs to the upper level.
pub fn level_is_the_last(law: Law, magnitude: u16)
    ensures small { level_of law magnitude ≤ 127 }
    ensures begins { least_of law (level_of law magnitude) ≤ magnitude }
    ensures last { (k : ℕ) → k ≤ 127 → least_of law k ≤ magnitude → k ≤ level_of law magnitude }
    ensures border { (k : ℕ) → k ≤ 127 → level_of law (least_of law k) ≡ k }
{}

/// A higher level has a greater magnitude: 0 to 32124 in mu-law, 8 to 32256 in A-law.
pub fn magnitudes_grow(law: Law, lower: u8, upper: u8)
    ensures grow { lower < upper → upper ≤ 127 → magnitude_of law lower < magnitude_of law upper }
    ensures mu_ends { (magnitude_of Law.Mu 0 ≡ 0) × (magnitude_of Law.Mu 127 ≡ 32124) }
    ensures a_ends { (magnitude_of Law.A 0 ≡ 8) × (magnitude_of Law.A 127 ≡ 32256) }
{}

/// A byte survives decoding and encoding, except for mu-law's negative zero: 7f decodes to 0, which encodes as ff.
/// Every sample that decoding can return survives encoding and decoding.
pub fn bytes_come_back(law: Law, byte: u8)
    ensures same { (law ≡ Law.Mu → byte ≢ 0x7f) → byte_of law (sample_of law byte) ≡ byte }
    ensures negative_zero { (sample_of Law.Mu 0x7f ≡ pos 0) × (byte_of Law.Mu (pos 0) ≡ 0xff) }
    ensures sample { quantized_of law (sample_of law byte) ≡ sample_of law byte }
{}

/// Encoding and decoding preserve the order of samples: the greater of two samples never becomes the smaller one.
pub fn order_is_kept(law: Law, lower: i16, upper: i16)
    ensures { lower ≤ℤ upper → quantized_of law lower ≤ℤ quantized_of law upper }
{}

/// Encoding and decoding move a sample by at most half the width of its level, or, in mu-law's first level, by at most
/// the whole width.
///
/// Above the last level a sample is clipped to that level's value, which moves it by at most 644. Only mu-law has such
/// samples.
pub fn errors_are_bounded(law: Law, sample: i16)
    ensures near { unsigned_abs sample ≤ end_of law →
        error_of law sample ≤ half_step_of law (level_of law (unsigned_abs sample)) }
    ensures clipped { end_of law ≤ unsigned_abs sample →
        error_of law sample + magnitude_of law 127 ≡ unsigned_abs sample }
    ensures farthest { error_of law sample ≤ 644 }
    // The bound is tight: each level above the first has its value in the middle.
    ensures middle { (k : ℕ) → 1 ≤ k → k ≤ 127 → least_of law k + half_step_of law k ≡ magnitude_of law k }
{}

/// Every value of the type [`Frame`](crate::Frame) is a frame as contracts define it (`IsFrame`).
///
/// A proof knows the range of a signed element only after the code has read that element. A function that receives a
/// frame as an argument gets the range here, at no cost.
pub fn frames_are_whole(samples: &Frame)
    ensures { IsFrame samples.now }
{
    for i in 0..FRAME_LEN {
        let _sample = samples[i];
    }
}
