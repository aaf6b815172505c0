//! Sequence numbers of RTP packets, which wrap after 65535 (RFC 3550, section 5.1).

ghost use Rattle.std.specs.Prelude.{◌≡◌};
ghost use Rattle.mg_playout.specs.Sequence.{distance_of};

/// A packet at least this far ahead of the next sequence number restarts a play list.
///
/// The name and the value are from RFC 3550, appendix A.1, whose algorithm waits for a second packet first.
pub const MAX_DROPOUT: i16 = 3000;

/// A packet at most this far behind the next sequence number is late, and does not restart a play list.
///
/// The name and the value are from RFC 3550, appendix A.1, where a packet at exactly this distance counts as a jump.
pub const MAX_MISORDER: i16 = 100;

/// Returns how far a sequence number is ahead of the next sequence number. The result is negative if the number is
/// behind.
pub(crate) fn distance(next: u16, sequence: u16) -> i16
    ensures { result ≡ distance_of next sequence }
{
    sequence.wrapping_sub(next).cast_signed()
}
