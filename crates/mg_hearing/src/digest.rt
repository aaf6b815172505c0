ghost use Rattle.std.specs.Prelude.{◌≡◌, take};

use mg_chain::END;

/// The length and the SHA-256 of a text.
#[derive(Drop)]
pub(crate) struct Digest {
    pub(crate) length: u64,
    /// The hexadecimal digits of the SHA-256, and a line feed.
    pub(crate) end: [u8; END],
}

impl Digest {
    /// Returns the SHA-256 in hexadecimal digits.
    pub(crate) fn digits(&self) -> &[u8]
        ensures value { result.now ≡ take 64 self.now.end }
    {
        &self.end[..END - 1]
    }
}
