ghost use Rattle.std.specs.Prelude.{◌≡◌, ◌<◌, ◌≤◌, pos, unsigned_abs};
ghost use Rattle.mg_g711.specs.Law.{byte_of, level_of, magnitude_of, sample_of};

use crate::law::Law;

// The bias that mu-law adds to a magnitude, so that each exponent above 0 starts at a power of two.
pub const BIAS: u16 = 132;

// The largest magnitude that is not clipped. In mu-law, it includes the bias.
const GREATEST: u16 = 32767;

// The bits of a byte that A-law inverts.
const INVERTED: u8 = 0x55;

// Each exponent has a linear function ("line"). The line of a magnitude's own exponent equals `16 * exponent +
// mantissa`, and no line is less than the level. So the level is the minimum of the lines. Computing the minimum needs
// no branch and no variable shift, so the compiler can vectorize the encoding of a frame.
#[tactic(auto, using(crate::proofs::Lines::level_a_is))]
fn level_a(magnitude: u16) -> u16
    requires { magnitude ≤ 32768 }
    ensures value { result ≡ level_of Law.A magnitude }
    ensures within { result ≤ 127 }
{
    let limited = magnitude.min(GREATEST);
    (limited >> 4)
        .min((limited >> 5) + 16)
        .min((limited >> 6) + 32)
        .min((limited >> 7) + 48)
        .min((limited >> 8) + 64)
        .min((limited >> 9) + 80)
        .min((limited >> 10) + 96)
}

// With the bias, the levels are the same as for A-law, except for the first exponent, which has its own line.
#[tactic(auto, using(crate::proofs::Lines::level_mu_is))]
fn level_mu(magnitude: u16) -> u16
    requires { magnitude ≤ 32768 }
    ensures value { result ≡ level_of Law.Mu magnitude }
    ensures within { result ≤ 127 }
{
    let biased = (magnitude + BIAS).min(GREATEST);
    ((biased >> 3) - 16).min(level_a(biased))
}

/// Encodes a sample as the byte for its level and sign.
///
/// A magnitude above the last level is clipped to that level.
#[tactic(auto, unfolding(crate::specs::Law::byte_of))]
pub fn encode(law: Law, sample: i16) -> u8
    ensures { result ≡ byte_of law sample }
{
    let magnitude = sample.unsigned_abs();
    match law {
        Law::Mu => {
            let level = level_mu(magnitude) as u8;
            if sample < 0 { 127 - level } else { 255 - level }
        }
        Law::A => {
            let level = level_a(magnitude) as u8;
            (if sample < 0 { level } else { 128 + level }) ^ INVERTED
        }
    }
}

#[tactic(auto, using(crate::proofs::Values::magnitude_mu_is))]
fn magnitude_mu(level: u8) -> u16
    requires { level < 128 }
    ensures value { result ≡ magnitude_of Law.Mu level }
    ensures within { result ≤ 32256 }
{
    let (exponent, mantissa) = (level / 16, u16::from(level % 16));
    ((8 * mantissa + BIAS) << exponent) - BIAS
}

#[tactic(auto, using(crate::proofs::Values::magnitude_a_is))]
fn magnitude_a(level: u8) -> u16
    requires { level < 128 }
    ensures value { result ≡ magnitude_of Law.A level }
    ensures within { result ≤ 32256 }
{
    let (exponent, mantissa) = (level / 16, u16::from(level % 16));
    if exponent == 0 {
        16 * mantissa + 8
    } else {
        (16 * mantissa + 264) << (exponent - 1)
    }
}

/// Decodes a byte: the magnitude of its level, with its sign.
///
/// The largest magnitude is 32124 in mu-law and 32256 in A-law.
#[tactic(auto, unfolding(crate::specs::Law::sample_of))]
pub fn decode(law: Law, byte: u8) -> i16
    ensures value { result ≡ sample_of law byte }
    ensures within { unsigned_abs result ≤ 32256 }
{
    match law {
        Law::Mu => {
            let turned = 255 - byte;
            let magnitude = magnitude_mu(turned % 128) as i16;
            if turned >= 128 { -magnitude } else { magnitude }
        }
        Law::A => {
            let turned = byte ^ INVERTED;
            let magnitude = magnitude_a(turned % 128) as i16;
            if turned < 128 { -magnitude } else { magnitude }
        }
    }
}
