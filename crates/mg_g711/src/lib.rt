//! G.711 mu-law (PCMU) and A-law (PCMA) on 16-bit samples.
//!
//! A magnitude from 0 to 32768 lies in one of 128 levels, `16 * exponent + mantissa`. [`encode`] writes a sample's
//! level and sign as one byte; [`decode`] returns the value of a byte's level, with the sign. [`encode_frame`] and
//! [`decode_frame`] convert the 160 samples of a [`Frame`] (20 ms), and [`halve_frame`] halves them. No call fails, and
//! none allocates.
//!
//! The levels are taken from ITU-T G.711 (tables 1 and 2), and scaled to 16 bits: by 4 for mu-law, by 8 for A-law. A
//! magnitude at the border of two levels belongs to the upper one. That is this project's choice: other codecs may
//! encode such a magnitude as another byte.
//!
//! ```rust
//! assert_eq!(rt; encode(Law::A, -1), 0x55);
//! assert_eq!(rt; decode(Law::Mu, 0x80), 32124);
//! ```
//!
//! [`theorems`] states properties of the levels: which bytes survive a round trip, that a round trip preserves the
//! order of samples, and how far it moves a sample.
//!
//! The invariant of a type that stores frames states `IsFrame` for each of them. [`decode_frame`] ensures `IsFrame`,
//! and [`theorems::frames_are_whole`] proves it for any other frame. `proofs/Frames.antt` has lemmas about `IsFrame`,
//! for example that 160 zeros are a frame.
#![tactic(auto)]

mod decoding;
mod frame;
mod law;
mod sample;
pub mod theorems;

pub use frame::{FRAME_LEN, Frame, decode_frame, encode_frame, halve_frame};
pub use law::Law;
pub use sample::{decode, encode};
