ghost use Rattle.std.specs.Prelude.{◌≡◌, ◌≤◌, ◌+◌, ◌*◌, length, IfOk, []};
ghost use Rattle.hex.specs.Hex.{encode_lower};
ghost use Rattle.mg_bytes.specs.Bytes.{appended};
ghost use Rattle.mg_core.specs.declared.event.Event.TheVariants as events;
ghost use Rattle.mg_core.specs.Recording.{datagram_text, event_line};

use crate::output::{PEER_LIMIT, push_peer};
use crate::script::DATAGRAM_LIMIT;
use mg_bytes::{Bytes, PORT_LIMIT, write_port};
use mg_engine::Peer;
use std::alloc::{AllocError, Global};
use std::marker::Model;

/// The maximum number of hexadecimal digits for the bytes of a datagram.
const DIGITS_ROOM: usize = 2 * DATAGRAM_LIMIT;

/// The maximum length, in bytes, of the text around a datagram's digits: a peer, a space and a line feed.
const DATAGRAM_START: usize = 2 + PEER_LIMIT;

/// The maximum length of a line, in bytes: `rtp`, a port, a peer, the digits of a datagram, three spaces and a line
/// feed.
const LINE_ROOM: usize = 5 + PORT_LIMIT + DATAGRAM_START + DIGITS_ROOM;

/// The script line for a datagram. It is built here and then written as a whole. In contracts, it appears as its text.
#[derive(Drop)]
pub struct EventLine {
    line: Bytes,
    digits: Vec<u8>,
}

impl Model for EventLine {
    ghost use Rattle.std.specs.Prelude.{◌≡◌, ◌+◌, List, ℕ, length};
    ghost use Rattle.mg_core.specs.declared.event_line.TheConstants.{DIGITS_ROOM, LINE_ROOM};

    ghost Value = { List ℕ };

    ghost view = { λ l. l.line.text };

    ghost invariant = { λ l. (l.line.room + length l.line.text ≡ LINE_ROOM) × (length l.digits.items ≡ DIGITS_ROOM) };
}

/// Writes a peer and the bytes of a datagram, and ends the line. The digits are built in `digits`.
#[tactic(auto, using(crate::proofs::OutputLemmas::steps))]
fn push_datagram(source: Peer, bytes: &[u8], digits: &mut [u8], out: &mut Bytes)
    requires digits { 2 * length bytes.now ≤ length digits.old }
    requires room { DATAGRAM_START + 2 * length bytes.now ≤ out.old.room }
    ensures value { out.new ≡ appended out.old (datagram_text source bytes.now) }
    ensures short { length (datagram_text source bytes.now) ≤ DATAGRAM_START + 2 * length bytes.now }
    ensures digits { length digits.new ≡ length digits.old }
{
    push_peer(source, out);
    out.push(b" ");
    let spelled = &mut digits[..2 * bytes.len()];
    hex::encode_to_slice(bytes, spelled).unwrap();
    out.push(spelled);
    out.push(b"\n");
}

impl EventLine {
    /// Creates an empty line. Fails only if an allocation fails. No other call allocates.
    pub fn new(alloc: Global) -> Result<Self, AllocError>
        ensures value { IfOk result (λ line. line ≡ []) }
    {
        Ok(EventLine {
            line: Bytes::new(alloc, LINE_ROOM)?,
            digits: vec![in alloc; 0; DIGITS_ROOM]?,
        })
    }

    /// Builds the line for a control datagram.
    #[tactic(auto, using(crate::proofs::OutputLemmas::steps))]
    pub fn control(&mut self, source: Peer, bytes: &[u8])
        requires short { length bytes.now ≤ DATAGRAM_LIMIT }
        ensures value { self.new ≡ event_line (events.Control source bytes.now) }
    {
        self.line.clear();
        self.line.push(b"control ");
        push_datagram(source, bytes, &mut self.digits, &mut self.line);
    }

    /// Builds the line for an RTP datagram at a media port.
    #[tactic(auto, using(crate::proofs::OutputLemmas::steps))]
    pub fn media(&mut self, port: u16, source: Peer, bytes: &[u8])
        requires short { length bytes.now ≤ DATAGRAM_LIMIT }
        ensures value { self.new ≡ event_line (events.Media port source bytes.now) }
    {
        self.line.clear();
        self.line.push(b"rtp ");
        write_port(port, &mut self.line);
        self.line.push(b" ");
        push_datagram(source, bytes, &mut self.digits, &mut self.line);
    }

    /// Returns the line with its line feed.
    pub fn as_slice(&self) -> &[u8]
        ensures value { result.now ≡ self.now }
    {
        self.line.as_slice()
    }
}
