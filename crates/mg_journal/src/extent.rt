ghost use Rattle.std.specs.Prelude.{◌≡◌, ℕ, ◌++◌, [], List, length, IfSome};
ghost use Rattle.mg_journal.specs.Text.{whole_lines};
ghost use Rattle.mg_journal.specs.aids.Opening.{IsExtent};

use memchr::memrchr;

/// The length of some text, and the length of its complete lines, in bytes.
#[derive(Clone, Copy)]
pub(crate) struct Extent {
    pub(crate) whole: u64,
    pub(crate) all: u64,
}

impl Extent {
    /// Returns the extent of empty text.
    pub(crate) fn new() -> Self
        ensures value { IsExtent result [] }
    {
        Extent { whole: 0, all: 0 }
    }

    /// Returns the extent after `part` is appended to the text, or `None` if the new length does not fit in 64 bits.
    pub(crate) fn after(self, part: &[u8]) -> Option<Extent>
        ensures value { (text : List ℕ) → IsExtent self text →
            IfSome result (λ extent. IsExtent extent (text ++ part.now)) }
    {
        let all = self.all.checked_add(part.len() as u64)?;
        let len = whole_len(part);
        if len == 0 {
            return Some(Extent { all, ..self });
        }
        let whole = self.all + len as u64;
        Some(Extent { whole, all })
    }
}

/// Returns the length of the complete lines of `text`, which end with its last line feed.
fn whole_len(text: &[u8]) -> usize
    ensures value { result ≡ length (whole_lines text.now) }
{
    match memrchr(b'\n', text) {
        Some(i) => i + 1,
        None => 0,
    }
}
