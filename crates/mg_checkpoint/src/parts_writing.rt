//! The parts of a checkpoint's lines.

ghost use Rattle.std.specs.Prelude.{◌≡◌, ◌++◌, IfOk, flat_map};
ghost use Rattle.mg_words.specs.Mode.{mode_text};
ghost use Rattle.mg_core.specs.Script.{escape_of};
ghost use Rattle.mg_checkpoint.specs.aids.Forms.{numeral, numbered, closing, names, after_dots, dotted, media_text, word_escape, word, rest_of_line};

use itoa::Buffer;
use mg_g711::Law;
use mg_sdp::Chosen;
use mg_words::Mode;
use std::alloc::AllocError;

/// Writes text.
pub fn put(text: &[u8], out: &mut Vec<u8>) -> Result<(), AllocError>
    ensures value { IfOk result (λ _. out.new.items ≡ out.old.items ++ text.now) }
{
    out.extend_from_slice(text)
}

/// Writes a number in decimal.
#[tactic(auto, using(crate::proofs::NumeralLemmas::numeral_is_decimal))]
pub fn put_number(n: u64, out: &mut Vec<u8>) -> Result<(), AllocError>
    ensures value { IfOk result (λ _. out.new.items ≡ out.old.items ++ numeral n) }
{
    let mut buffer = Buffer::new();
    put(buffer.format(n).as_bytes(), out)
}

/// Writes a label, a number and a space.
#[tactic(auto, using(crate::proofs::WritingLemmas::steps))]
pub fn put_numbered(label: &[u8], n: u64, out: &mut Vec<u8>) -> Result<(), AllocError>
    ensures value { IfOk result (λ _. out.new.items ≡ out.old.items ++ numbered label.now n) }
{
    put(label, out)?;
    put_number(n, out)?;
    put(b" ", out)
}

/// Writes a label and a number, and ends the line.
#[tactic(auto, using(crate::proofs::WritingLemmas::steps))]
pub fn put_closing(label: &[u8], n: u64, out: &mut Vec<u8>) -> Result<(), AllocError>
    ensures value { IfOk result (λ _. out.new.items ≡ out.old.items ++ closing label.now n) }
{
    put(label, out)?;
    put_number(n, out)?;
    put(b"\n", out)
}

/// Writes the names of terminations, each followed by a space.
#[tactic(auto, using(crate::proofs::WritingLemmas::steps))]
pub fn put_names(numbers: &[u32], out: &mut Vec<u8>) -> Result<(), AllocError>
    ensures value { IfOk result (λ _. out.new.items ≡ out.old.items ++ names numbers.now) }
{
    for n in numbers {
        put_numbered(b"RTP/", u64::from(*n), out)?;
    }
    Ok(())
}

/// Writes a mode.
pub fn put_mode(mode: Mode, out: &mut Vec<u8>) -> Result<(), AllocError>
    ensures value { IfOk result (λ _. out.new.items ≡ out.old.items ++ mode_text mode) }
{
    put(mode.as_str().as_bytes(), out)
}

/// Writes numbers, each after a dot, and a colon.
#[tactic(auto, using(crate::proofs::WritingLemmas::dots))]
fn put_after_dots(numbers: &[u8], out: &mut Vec<u8>) -> Result<(), AllocError>
    ensures value { IfOk result (λ _. out.new.items ≡ out.old.items ++ after_dots numbers.now) }
{
    for n in numbers {
        put(b".", out)?;
        put_number(u64::from(*n), out)?;
    }
    put(b":", out)
}

/// Writes an address and a colon.
#[tactic(auto, using(crate::proofs::WritingLemmas::steps))]
fn put_address(address: &[u8], out: &mut Vec<u8>) -> Result<(), AllocError>
    ensures value { IfOk result (λ _. out.new.items ≡ out.old.items ++ dotted address.now) }
{
    match address {
        [] => put(b":", out),
        [first, others @ ..] => {
            put_number(u64::from(*first), out)?;
            put_after_dots(others, out)
        }
    }
}

/// Writes the address, the port and the law of a Local or a Remote, if there is one.
#[tactic(auto, using(crate::proofs::WritingLemmas::steps))]
pub fn put_media(media: Option<Chosen>, out: &mut Vec<u8>) -> Result<(), AllocError>
    ensures value { IfOk result (λ _. out.new.items ≡ out.old.items ++ media_text media) }
{
    let Some(chosen) = media else {
        return put(b"none ", out);
    };
    put(b"at ", out)?;
    put_address(chosen.address.as_slice(), out)?;
    put_numbered(b"", u64::from(chosen.port), out)?;
    match chosen.law {
        Law::Mu => put(b"PCMU ", out),
        Law::A => put(b"PCMA ", out),
    }
}

/// Writes a byte of text, escaped if necessary.
fn put_escape(b: u8, out: &mut Vec<u8>) -> Result<(), AllocError>
    ensures value { IfOk result (λ _. out.new.items ≡ out.old.items ++ escape_of b) }
{
    match b {
        b'\n' => put(b"\\n", out),
        b'\r' => put(b"\\r", out),
        b'\\' => put(b"\\\\", out),
        _ => put(&[b], out),
    }
}

/// Writes a byte of a word, escaped if necessary.
fn put_word_escape(b: u8, out: &mut Vec<u8>) -> Result<(), AllocError>
    ensures value { IfOk result (λ _. out.new.items ≡ out.old.items ++ word_escape b) }
{
    if b == b' ' {
        put(b"\\s", out)
    } else {
        put_escape(b, out)
    }
}

/// Writes bytes as a word, and then a space.
#[tactic(auto, using(crate::proofs::WritingLemmas::steps))]
pub fn put_word(bytes: &[u8], out: &mut Vec<u8>) -> Result<(), AllocError>
    ensures value { IfOk result (λ _. out.new.items ≡ out.old.items ++ word bytes.now) }
{
    for b in bytes {
        put_word_escape(*b, out)?;
    }
    put(b" ", out)
}

/// Writes bytes as the rest of a line.
#[tactic(auto, using(crate::proofs::WritingLemmas::steps))]
pub fn put_rest_of_line(bytes: &[u8], out: &mut Vec<u8>) -> Result<(), AllocError>
    ensures value { IfOk result (λ _. out.new.items ≡ out.old.items ++ rest_of_line bytes.now) }
{
    for b in bytes {
        put_escape(*b, out)?;
    }
    put(b"\n", out)
}
