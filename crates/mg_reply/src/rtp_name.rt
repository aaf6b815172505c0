ghost use Rattle.std.specs.Prelude.{◌≡◌, ◌≤◌, length, take};
ghost use Rattle.mg_words.specs.Term.{rtp_name};

use itoa::Buffer;
use std::marker::Model;

/// The number of bytes in which a name is stored.
pub(crate) const NAME_ROOM: usize = 16;

/// The name of a termination, `RTP/` and its number in decimal.
///
/// The name is 5 to 14 bytes long but is stored in 16, so that one move copies it. In contracts, only the name appears.
#[derive(Drop)]
pub struct RtpName {
    padded: [u8; NAME_ROOM],
    len: usize,
}

impl Model for RtpName {
    ghost use Rattle.std.specs.Prelude.{List, ℕ, ◌≤◌, take};
    ghost use Rattle.mg_reply.specs.declared.rtp_name.TheConstants.{NAME_ROOM};

    ghost Value = { List ℕ };

    ghost view = { λ name. take name.len name.padded };

    ghost invariant = { λ name. name.len ≤ NAME_ROOM };
}

impl RtpName {
    /// Returns the name of the termination with this number.
    #[tactic(auto, using(crate::proofs::WrittenLemmas::lengths))]
    pub fn new(number: u32) -> Self
        ensures value { result ≡ rtp_name number }
    {
        let mut buffer = Buffer::new();
        let digits = buffer.format(number).as_bytes();
        let mut padded = *b"RTP/000000000000";
        let len = 4 + digits.len();
        padded[4..len].copy_from_slice(digits);
        RtpName { padded, len }
    }

    /// Returns the bytes of the name.
    pub fn as_slice(&self) -> &[u8]
        ensures value { result.now ≡ self.now }
    {
        &self.padded[..self.len]
    }

    /// Returns a copy of the name.
    pub fn again(&self) -> Self
        ensures value { result ≡ self.now }
    {
        RtpName {
            padded: self.padded,
            len: self.len,
        }
    }

    /// Returns the length of the name in bytes.
    pub(crate) fn len(&self) -> usize
        ensures value { result ≡ length self.now }
    {
        self.len
    }

    /// Returns the 16 bytes that start with the name.
    pub(crate) fn padded(&self) -> &[u8; NAME_ROOM]
        ensures value { take (length self.now) result.now ≡ self.now }
        ensures short { length self.now ≤ NAME_ROOM }
    {
        &self.padded
    }
}
