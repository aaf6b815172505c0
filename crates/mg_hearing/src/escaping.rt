ghost use Rattle.std.specs.Prelude.{◌≡◌, ◌++◌, IfOk, OnOk};
ghost use Rattle.mg_heard.specs.Escaped.{escaped, escaped_byte};
ghost use Rattle.mg_hearing.specs.Page.{quoted, quoted_byte};

use std::alloc::{AllocError, Global};

/// Escapes a byte and appends it to a page.
fn push_escaped(byte: u8, page: &mut Vec<u8>) -> Result<(), AllocError>
    ensures value { OnOk result (page.new.items ≡ page.old.items ++ escaped_byte byte) }
{
    if byte == b'&' {
        return page.extend_from_slice(b"&amp;");
    }
    if byte == b'<' {
        return page.extend_from_slice(b"&lt;");
    }
    if byte == b'>' {
        return page.extend_from_slice(b"&gt;");
    }
    if byte == b'"' {
        return page.extend_from_slice(b"&quot;");
    }
    if byte == b'\'' {
        return page.extend_from_slice(b"&#39;");
    }
    if byte < 32 || byte == 127 {
        return page.extend_from_slice(b"&#65533;");
    }
    page.extend_from_slice(&[byte])
}

/// Returns `text` with the escapes that a page needs.
pub(crate) fn escaped(alloc: Global, text: &[u8]) -> Result<Vec<u8>, AllocError>
    ensures value { IfOk result (λ page. page.items ≡ escaped text.now) }
{
    let mut page = Vec::new(alloc);
    for byte in text {
        push_escaped(*byte, &mut page)?;
    }
    Ok(page)
}

/// Appends a byte to a quoted word.
fn push_quoted(byte: u8, word: &mut Vec<u8>) -> Result<(), AllocError>
    ensures value { OnOk result (word.new.items ≡ word.old.items ++ quoted_byte byte) }
{
    if byte == b'\'' {
        return word.extend_from_slice(b"'\\''");
    }
    word.extend_from_slice(&[byte])
}

/// Returns `text` as one word of a command line.
pub(crate) fn quoted(alloc: Global, text: &[u8]) -> Result<Vec<u8>, AllocError>
    ensures value { IfOk result (λ word. word.items ≡ quoted text.now) }
{
    let mut word = Vec::new(alloc);
    word.extend_from_slice(b"'")?;
    for byte in text {
        push_quoted(*byte, &mut word)?;
    }
    word.extend_from_slice(b"'")?;
    Ok(word)
}
