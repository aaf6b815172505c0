ghost use Rattle.std.specs.Prelude.{◌≡◌, ◌<◌, ◌^◌, ◌++◌, length, drop};
ghost use Rattle.mg_rtp.specs.Header.{header_bytes, plain};
ghost use Rattle.mg_rtp.specs.Packet.{IsPacket};

use crate::header::{HEADER_LEN, Header, RTP_VERSION};
use byteorder::{BigEndian, ByteOrder};

/// The size of a written payload, in bytes: 20 ms of G.711, one byte for each of 160 samples.
pub const PAYLOAD_LEN: usize = 160;

/// The size of a written packet, in bytes: the header of 12 bytes and the payload.
pub const PACKET_LEN: usize = HEADER_LEN + PAYLOAD_LEN;

/// Creates a packet without padding, extension or contributing sources.
pub fn write(header: Header, payload: &[u8; PAYLOAD_LEN]) -> [u8; PACKET_LEN]
    requires seven_bits { header.payload_type < 128 }
    ensures bytes { result ≡ header_bytes plain header ++ payload.now }
    // The result is the packet with this header and payload, so `read` returns both unchanged.
    ensures packet { IsPacket result header payload.now }
{
    let mut bytes = [0; PACKET_LEN];
    write_payload(payload, &mut bytes);
    write_header(header, &mut bytes);
    bytes
}

/// Overwrites a packet's header with this header, which announces no padding, extension or contributing sources. The
/// payload is unchanged.
pub fn write_header(header: Header, bytes: &mut [u8; PACKET_LEN])
    requires seven_bits { header.payload_type < 128 }
    ensures bytes { bytes.new ≡ header_bytes plain header ++ drop 12 bytes.old }
    ensures payload { drop 12 bytes.new ≡ drop 12 bytes.old }
{
    bytes[..HEADER_LEN].copy_from_slice(&head_of(header));
}

/// Overwrites the payload of a packet whose header is twelve bytes long.
pub fn write_payload(payload: &[u8; PAYLOAD_LEN], bytes: &mut [u8; PACKET_LEN])
    ensures payload { drop 12 bytes.new ≡ payload.now }
{
    bytes[HEADER_LEN..].copy_from_slice(payload);
}

/// Writes the twelve bytes of a header without padding, extension or contributing sources.
fn head_of(header: Header) -> [u8; HEADER_LEN]
    requires seven_bits { header.payload_type < 128 }
    ensures bytes { result ≡ header_bytes plain header }
{
    let mut head = [0; HEADER_LEN];
    head[0] = RTP_VERSION << 6;
    head[1] = u8::from(header.marker) << 7 | header.payload_type;
    BigEndian::write_u16(&mut head[2..4], header.sequence);
    BigEndian::write_u32(&mut head[4..8], header.timestamp);
    BigEndian::write_u32(&mut head[8..], header.ssrc);
    head
}
