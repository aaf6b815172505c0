ghost use Rattle.std.specs.Prelude.{◌≡◌, ◌<◌, ◌++◌, List, [], ◌∷◌, length, map};
ghost use Rattle.mg_g711.specs.Law.{byte_of};
ghost use Rattle.mg_engine.specs.declared.datagram.Datagram.{Datagram};
ghost use Rattle.mg_engine.specs.aids.Shares.{IsPut, packet_at, payload_of};
ghost use Rattle.mg_engine.specs.aids.Sending.{addressed};
ghost use Rattle.mg_words.specs.declared.limits.TheConstants.{TERMINATION_LIMIT};

use arrayvec::ArrayVec;
use mg_g711::{Frame, Law, encode_frame};
use mg_rooms::TERMINATION_LIMIT;
use mg_rtp::{Header, PACKET_LEN, write_header, write_payload};
use mg_words::Peer;

/// An RTP packet to be sent.
#[derive(Clone, Copy, Debug, PartialEq, Eq)]
pub struct Datagram {
    /// The media port that the gateway sends the packet from.
    pub from: u16,
    /// The destination.
    pub to: Peer,
    /// The packet: a header of 12 bytes and a payload of 160.
    pub bytes: [u8; PACKET_LEN],
}

impl Default for Datagram {
    ghost use Rattle.std.specs.Prelude.{◌≡◌};
    ghost use Rattle.mg_engine.specs.aids.Datagram.{blank};

    ghost is_default = { λ datagram. datagram ≡ blank };

    fn default() -> Self {
        let address = [0; 4];
        let bytes = [0; PACKET_LEN];
        Datagram {
            from: 0,
            to: Peer { address, port: 0 },
            bytes,
        }
    }
}

impl Datagram {
    /// Sets the source port, the destination and the header.
    pub(crate) fn address(&mut self, from: u16, to: Peer, header: Header)
        requires seven_bits { header.payload_type < 128 }
        ensures value { self.new ≡ addressed from to header self.old }
        ensures payload { payload_of self.new ≡ payload_of self.old }
    {
        self.from = from;
        self.to = to;
        write_header(header, &mut self.bytes);
    }
}

/// The packets of one tick, in order of termination number.
pub type Outbox = ArrayVec<Datagram, TERMINATION_LIMIT>;

/// Appends a packet with a frame, encoded by this law, to an outbox. The packet's header and addresses are set later.
pub fn push_payload(outbox: &mut Outbox, law: Law, frame: &Frame)
    requires room { length outbox.old.items < TERMINATION_LIMIT }
    ensures put { IsPut outbox.old.items outbox.new.items (map (byte_of law) frame.now) }
{
    outbox.push(Datagram::default());
    let last = outbox.len() - 1;
    write_payload(&encode_frame(law, frame), &mut outbox[last].bytes);
}

/// Sets the source port, the destination and the header of the last packet in an outbox.
pub fn address_last(outbox: &mut Outbox, from: u16, to: Peer, header: Header)
    requires last { 0 < length outbox.old.items }
    requires seven_bits { header.payload_type < 128 }
    ensures value { (before : List Datagram) (last : Datagram) → outbox.old.items ≡ before ++ last ∷ [] →
        outbox.new.items ≡ before ++ addressed from to header last ∷ [] }
{
    let last = outbox.len() - 1;
    outbox[last].address(from, to, header);
}

/// Appends a copy of the packet at this index to the outbox.
pub fn lend(outbox: &mut Outbox, packet: u8)
    requires there { packet < length outbox.old.items }
    requires room { length outbox.old.items < TERMINATION_LIMIT }
    ensures value { outbox.new.items ≡ outbox.old.items ++ packet_at outbox.old.items packet ∷ [] }
{
    let lent = outbox[usize::from(packet)];
    outbox.push(lent);
}
