ghost use Rattle.std.specs.Prelude.{◌≡◌, ◌+◌, ◌*◌, ◌≤◌, length, map};
ghost use Rattle.mg_bytes.specs.Bytes.{appended};
ghost use Rattle.mg_core.specs.Script.{escaped, escape_of};
ghost use Rattle.hex.specs.Hex.{encode_lower};
ghost use Rattle.mg_core.specs.Peer.{peer_text};
ghost use Rattle.mg_core.specs.Run.{answer_line, packet_line, lines_for};
ghost use Rattle.mg_core.specs.Step.{Packet};

use mg_bytes::{Bytes, PORT_LIMIT, write_address, write_port};
use mg_engine::{Datagram, Peer};
use mg_rtp::PACKET_LEN;
use mg_words::ADDRESS_LIMIT;

/// The maximum length of a peer, in bytes: an address, a colon and a port.
pub const PEER_LIMIT: usize = ADDRESS_LIMIT + 1 + PORT_LIMIT;

/// The maximum length, in bytes, of the line for an answer, not counting the answer itself: `say`, two spaces, a peer
/// and a line feed.
pub const LINE_START: usize = 6 + PEER_LIMIT;

/// The number of hexadecimal digits for the bytes of a packet.
const DIGITS_LEN: usize = 2 * PACKET_LEN;

/// The maximum length, in bytes, of the line for a packet: `rtp`, three spaces, a port, a peer, the digits and a line
/// feed.
const PACKET_LINE: usize = 7 + PORT_LIMIT + PEER_LIMIT + DIGITS_LEN;

/// Writes a byte of text, escaped if necessary.
fn push_escape(b: u8, out: &mut Bytes)
    requires room { 2 ≤ out.old.room }
    ensures value { out.new ≡ appended out.old (escape_of b) }
{
    match b {
        b'\n' => out.push(b"\\n"),
        b'\r' => out.push(b"\\r"),
        b'\\' => out.push(b"\\\\"),
        _ => out.push(&[b]),
    }
}

/// Writes text with escapes.
#[tactic(auto, using(crate::proofs::OutputLemmas::steps))]
fn push_escaped(text: &[u8], out: &mut Bytes)
    requires room { 2 * length text.now ≤ out.old.room }
    ensures value { out.new ≡ appended out.old (escaped text.now) }
    ensures short { length (escaped text.now) ≤ 2 * length text.now }
{
    for b in text {
        push_escape(*b, out);
    }
}

/// Writes a peer: an address, a colon and a port.
#[tactic(auto, using(crate::proofs::OutputLemmas::steps))]
pub fn push_peer(peer: Peer, out: &mut Bytes)
    requires room { PEER_LIMIT ≤ out.old.room }
    ensures value { out.new ≡ appended out.old (peer_text peer) }
    ensures short { length (peer_text peer) ≤ PEER_LIMIT }
{
    write_address(peer.address, out);
    out.push(b":");
    write_port(peer.port, out);
}

/// Writes the line for an answer to a peer.
#[tactic(auto, using(crate::proofs::OutputLemmas::steps))]
pub fn push_answer(peer: Peer, text: &[u8], out: &mut Bytes)
    requires room { LINE_START + 2 * length text.now ≤ out.old.room }
    ensures value { out.new ≡ appended out.old (answer_line peer text.now) }
    ensures short { length (answer_line peer text.now) ≤ LINE_START + 2 * length text.now }
{
    out.push(b"say ");
    push_peer(peer, out);
    out.push(b" ");
    push_escaped(text, out);
    out.push(b"\n");
}

/// Writes bytes in lower-case hexadecimal.
fn push_digits(bytes: &[u8; PACKET_LEN], out: &mut Bytes)
    requires room { DIGITS_LEN ≤ out.old.room }
    ensures value { out.new ≡ appended out.old (encode_lower bytes.now) }
    ensures short { length (encode_lower bytes.now) ≡ DIGITS_LEN }
{
    let mut digits = [0; DIGITS_LEN];
    hex::encode_to_slice(bytes.as_slice(), &mut digits).unwrap();
    out.push(&digits);
}

/// Writes the line for a packet.
#[tactic(auto, using(crate::proofs::OutputLemmas::steps))]
fn push_packet(packet: &Datagram, out: &mut Bytes)
    requires room { PACKET_LINE ≤ out.old.room }
    ensures value { out.new ≡ appended out.old (packet_line packet.now) }
    ensures short { length (packet_line packet.now) ≤ PACKET_LINE }
{
    out.push(b"rtp ");
    write_port(packet.from, out);
    out.push(b" ");
    push_peer(packet.to, out);
    out.push(b" ");
    push_digits(&packet.bytes, out);
    out.push(b"\n");
}

/// Writes a line for each packet of a tick.
#[tactic(auto, using(crate::proofs::OutputLemmas::steps))]
pub fn push_packets(packets: &[Datagram], out: &mut Bytes)
    requires room { PACKET_LINE * length packets.now ≤ out.old.room }
    ensures value { out.new ≡ appended out.old (lines_for (map Packet packets.now)) }
    ensures short { length (lines_for (map Packet packets.now)) ≤ PACKET_LINE * length packets.now }
{
    for packet in packets {
        push_packet(packet, out);
    }
}
