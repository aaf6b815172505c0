ghost use Rattle.std.specs.Prelude.{◌≡◌, length, nat_lt};
ghost use Rattle.mg_words.specs.Limits.{message_limit};

use mg_words::MESSAGE_LIMIT;

/// Returns whether a control datagram is longer than any message: more than 8,192 bytes. Such a datagram is answered
/// with error 501 and changes nothing but the count of control datagrams, so a journal needn't have it.
pub fn is_oversized(bytes: &[u8]) -> bool
    ensures value { result ≡ nat_lt message_limit (length bytes.now) }
{
    bytes.len() > MESSAGE_LIMIT
}
