ghost use Rattle.std.specs.Prelude.{◌≡◌, ◌≢◌, ◌↔◌, ◌<◌, ◌≤◌, ◌*◌, ◌^◌, ℕ, List, ◌∷◌, ◌++◌, length, slice_index, IsTrue, IfOk, IfErr, IsOkAnd};
ghost use Rattle.mg_rtp.specs.declared.header.Header.{Header};
ghost use Rattle.mg_rtp.specs.declared.rtp_fault.RtpFault.{RtpFault};
ghost use Rattle.mg_rtp.specs.Header.{IsHeader, field_bytes};
ghost use Rattle.mg_rtp.specs.Packet.{IsPacket, AreSources, IsExtension, IsPadding};
ghost use Rattle.mg_rtp.specs.RtpFault.{IsFault, EndsInExtension, HasBadPadding};

use crate::header::{HEADER_LEN, Header, RTP_VERSION};
use crate::packet::Packet;
use crate::rtp_fault::RtpFault;
use byteorder::{BigEndian, ByteOrder};

/// The size, in bytes, of a contributing source and of a word in the header extension.
const WORD_LEN: usize = 4;

/// The padding bit of the first byte.
const PADDED: u8 = 0x20;

/// The extension bit of the first byte.
const EXTENDED: u8 = 0x10;

/// The bits of the first byte that count the contributing sources.
const SOURCE_COUNT: u8 = 0x0f;

/// The marker bit of the second byte.
const MARKER: u8 = 0x80;

/// Parses a datagram of any length as a packet, or returns the first fault in it.
///
/// The payload starts after the header, the contributing sources and the extension, which are skipped. It ends before
/// the padding.
pub fn read(bytes: &[u8]) -> Result<Packet<'_>, RtpFault>
    // If a packet is returned, the datagram is that packet.
    ensures found { IfOk result (λ packet. IsPacket bytes.now packet.header packet.payload.now) }
    // If the datagram is a packet, that packet is returned.
    ensures only { (header : Header) (payload : List ℕ) → IsPacket bytes.now header payload →
        IsOkAnd result (λ packet. (packet.header ≡ header) × (packet.payload.now ≡ payload)) }
    // A fault is returned if and only if the datagram has that fault.
    ensures fault { (fault : RtpFault) → (result ≡ Err fault) ↔ IsFault bytes.now fault }
{
    if bytes.len() < HEADER_LEN {
        return Err(RtpFault::Short);
    }
    let (head, rest) = bytes.split_at(HEADER_LEN);
    let first = head[0];
    if first >> 6 != RTP_VERSION {
        return Err(RtpFault::Version);
    }
    let header = header_of(head);
    let rest = without_sources(rest, first & SOURCE_COUNT)?;
    let rest = without_extension(rest, first & EXTENDED != 0)?;
    let payload = without_padding(rest, first & PADDED != 0)?;
    Ok(Packet { header, payload })
}

/// Parses a header's fields from its twelve bytes.
fn header_of(head: &[u8]) -> Header
    requires { length head.now ≡ HEADER_LEN }
    ensures fields { head.now ≡ slice_index head.now 0 ∷ field_bytes result }
    ensures within { IsHeader result }
{
    Header {
        marker: head[1] & MARKER != 0,
        payload_type: head[1] & !MARKER,
        sequence: BigEndian::read_u16(&head[2..]),
        timestamp: BigEndian::read_u32(&head[4..]),
        ssrc: BigEndian::read_u32(&head[8..]),
    }
}

/// Skips `count` contributing sources.
fn without_sources(rest: &[u8], count: u8) -> Result<&[u8], RtpFault>
    ensures ok { IfOk result (λ after. (sources : List ℕ) × AreSources count sources
        × (rest.now ≡ sources ++ after.now)) }
    ensures err { IfErr result (λ fault. (fault ≡ RtpFault.Short) × (length rest.now < 4 * count)) }
{
    let len = WORD_LEN * usize::from(count);
    if rest.len() < len {
        return Err(RtpFault::Short);
    }
    Ok(&rest[len..])
}

/// Skips the header extension if the packet has one.
fn without_extension(rest: &[u8], extended: bool) -> Result<&[u8], RtpFault>
    ensures ok { IfOk result (λ after. (extension : List ℕ) × IsExtension extended extension
        × (rest.now ≡ extension ++ after.now)) }
    ensures err { IfErr result (λ fault. (fault ≡ RtpFault.Extension)
        × IsTrue extended × EndsInExtension rest.now) }
{
    if !extended {
        return Ok(rest);
    }
    if rest.len() < WORD_LEN {
        return Err(RtpFault::Extension);
    }
    let words = BigEndian::read_u16(&rest[2..]);
    let len = WORD_LEN + WORD_LEN * usize::from(words);
    if rest.len() < len {
        return Err(RtpFault::Extension);
    }
    Ok(&rest[len..])
}

/// Removes the padding if the packet has any.
fn without_padding(rest: &[u8], padded: bool) -> Result<&[u8], RtpFault>
    ensures ok { IfOk result (λ payload. (padding : List ℕ) × IsPadding padded padding
        × (rest.now ≡ payload.now ++ padding)) }
    ensures err { IfErr result (λ fault. (fault ≡ RtpFault.Padding)
        × IsTrue padded × HasBadPadding rest.now) }
{
    if !padded {
        return Ok(rest);
    }
    let Some(last) = rest.last() else {
        return Err(RtpFault::Padding);
    };
    let count = usize::from(*last);
    if count == 0 || rest.len() < count {
        return Err(RtpFault::Padding);
    }
    Ok(&rest[..rest.len() - count])
}
