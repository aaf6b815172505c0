ghost use Rattle.std.specs.Prelude.{◌≡◌, ◌≤◌, length, decimal};
ghost use Rattle.mg_words.specs.Address.{address_text};
ghost use Rattle.mg_bytes.specs.Bytes.{appended};

use crate::bytes::Bytes;
use itoa::Buffer;
use mg_words::{ADDRESS_LIMIT, address_text};

/// The maximum length, in bytes, of a port in decimal.
pub const PORT_LIMIT: usize = 5;

/// Writes a port in decimal (at most 5 bytes).
#[tactic(auto, using(crate::proofs::AppendedLemmas::lengths))]
pub fn write_port(port: u16, out: &mut Bytes)
    requires room { PORT_LIMIT ≤ out.old.room }
    ensures value { out.new ≡ appended out.old (decimal port) }
    ensures short { length (decimal port) ≤ PORT_LIMIT }
{
    let mut buffer = Buffer::new();
    out.push(buffer.format(port).as_bytes());
}

/// Writes an IPv4 address in dotted decimal (at most 15 bytes).
pub fn write_address(address: [u8; 4], out: &mut Bytes)
    requires room { ADDRESS_LIMIT ≤ out.old.room }
    ensures value { out.new ≡ appended out.old (address_text address) }
    ensures short { length (address_text address) ≤ ADDRESS_LIMIT }
{
    out.push(address_text(address).as_slice());
}
