ghost use Rattle.std.specs.Prelude.{◌≡◌, ◌*◌, ◌≤◌, length};
ghost use Rattle.mg_bytes.specs.Bytes.{appended};
ghost use Rattle.mg_heard.specs.Escaped.{escaped, escaped_byte};

use mg_bytes::Bytes;

/// The maximum length, in bytes, of an escaped byte.
pub(crate) const ESCAPE_LIMIT: usize = 8;

/// Escapes a byte and writes it to a page.
fn push_escape(byte: u8, out: &mut Bytes)
    requires room { ESCAPE_LIMIT ≤ out.old.room }
    ensures value { out.new ≡ appended out.old (escaped_byte byte) }
{
    if byte == b'&' {
        out.push(b"&amp;");
    } else if byte == b'<' {
        out.push(b"&lt;");
    } else if byte == b'>' {
        out.push(b"&gt;");
    } else if byte == b'"' {
        out.push(b"&quot;");
    } else if byte == b'\'' {
        out.push(b"&#39;");
    } else if byte < 32 || byte == 127 {
        out.push(b"&#65533;");
    } else {
        out.push(&[byte]);
    }
}

/// Escapes text and writes it to a page.
#[tactic(auto, using(crate::proofs::EscapedLemmas::steps))]
pub(crate) fn push_escaped(text: &[u8], out: &mut Bytes)
    requires room { ESCAPE_LIMIT * length text.now ≤ out.old.room }
    ensures value { out.new ≡ appended out.old (escaped text.now) }
    ensures short { length (escaped text.now) ≤ ESCAPE_LIMIT * length text.now }
{
    for byte in text {
        push_escape(*byte, out);
    }
}
