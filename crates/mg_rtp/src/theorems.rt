//! Properties of all datagrams. The functions do nothing: their contracts are the theorems.

ghost use Rattle.std.specs.Prelude.{◌≡◌, ℕ, List};
ghost use Rattle.mg_rtp.specs.declared.header.Header.{Header};
ghost use Rattle.mg_rtp.specs.Packet.{IsPacket};
ghost use Rattle.mg_rtp.specs.Reading.{Reading, IsPacketReading};

use crate::reading::read;

/// A datagram can be read as at most one packet.
pub fn one_packet()
    ensures at_most_one { (bytes : List ℕ) (h k : Header) (p q : List ℕ) →
        IsPacket bytes h p → IsPacket bytes k q → (h ≡ k) × (p ≡ q) }
{}

/// Every datagram either is exactly one packet or has exactly one fault.
pub fn one_reading(bytes: &[u8])
    ensures some { (reading : Reading) × IsPacketReading bytes.now reading }
    ensures at_most_one { (list : List ℕ) (a b : Reading) → IsPacketReading list a → IsPacketReading list b → a ≡ b }
{
    let _ = read(bytes);
}
