ghost use Rattle.std.specs.Prelude.{◌≡◌, ◌+◌, ◌≤◌, ◌++◌, length, decimal};
ghost use Rattle.mg_sdp.specs.Written.{session_text, law_text};

use crate::chosen::Chosen;
use arrayvec::ArrayVec;
use itoa::Buffer;
use mg_g711::Law;
use mg_words::address_text;

/// The maximum length of a written description, in bytes.
pub const TEXT_LIMIT: usize = 68;

fn push(out: &mut ArrayVec<u8, TEXT_LIMIT>, text: &[u8])
    requires room { length out.old.items + length text.now ≤ TEXT_LIMIT }
    ensures value { out.new.items ≡ out.old.items ++ text.now }
    ensures len { length out.new.items ≡ length out.old.items + length text.now }
{
    let _ = out.try_extend_from_slice(text);
}

fn push_number(out: &mut ArrayVec<u8, TEXT_LIMIT>, n: u16)
    requires room { length out.old.items + length (decimal n) ≤ TEXT_LIMIT }
    ensures value { out.new.items ≡ out.old.items ++ decimal n }
    ensures len { length out.new.items ≡ length out.old.items + length (decimal n) }
{
    let mut buffer = Buffer::new();
    push(out, buffer.format(n).as_bytes());
}

/// Returns the payload type of a law (RFC 3551, section 6).
fn payload_type(law: Law) -> &'static str
    ensures value { result.now ≡ law_text law }
    ensures len { length result.now ≡ 1 }
{
    match law {
        Law::Mu => "0",
        Law::A => "8",
    }
}

/// Writes the description in a Local: four lines, each ending in CR LF. Together they are at most 68 bytes long.
#[tactic(auto, using(crate::proofs::WrittenLemmas::lengths))]
pub fn write_local(chosen: &Chosen) -> ArrayVec<u8, TEXT_LIMIT>
    ensures value { result.items ≡ session_text chosen.now }
{
    let mut out = ArrayVec::new();
    push(&mut out, b"v=0\r\nc=IN IP4 ");
    push(&mut out, address_text(chosen.address).as_slice());
    push(&mut out, b"\r\nm=audio ");
    push_number(&mut out, chosen.port);
    push(&mut out, b" RTP/AVP ");
    push(&mut out, payload_type(chosen.law).as_bytes());
    push(&mut out, b"\r\na=ptime:20\r\n");
    out
}

/// Writes the description in a Remote, in the same form as in a Local.
pub fn write_remote(chosen: &Chosen) -> ArrayVec<u8, TEXT_LIMIT>
    ensures value { result.items ≡ session_text chosen.now }
{
    write_local(chosen)
}
