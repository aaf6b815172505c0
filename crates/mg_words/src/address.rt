ghost use Rattle.std.specs.Prelude.{◌≡◌, ◌+◌, ◌≤◌, ◌++◌, ◌∷◌, [], length, decimal};
ghost use Rattle.mg_words.specs.Address.{address_of, address_text};

use crate::number::address_part_of;
use crate::parts::cut;
use arrayvec::ArrayVec;
use itoa::Buffer;

/// The length of the longest IPv4 address in dotted decimal, in bytes.
pub const ADDRESS_LIMIT: usize = 15;

/// Parses an IPv4 address in dotted decimal: four numbers of one to three digits, each at most 255. Returns `None` if
/// the text is anything else.
#[tactic(auto, unfolding(crate::specs::Address::address_of))]
pub fn address_of(text: &[u8]) -> Option<[u8; 4]>
    ensures value { result ≡ address_of text.now }
{
    let (first, rest) = cut(b'.', text)?;
    let (second, rest) = cut(b'.', rest)?;
    let (third, fourth) = cut(b'.', rest)?;
    let first = address_part_of(first)?;
    let second = address_part_of(second)?;
    let third = address_part_of(third)?;
    let fourth = address_part_of(fourth)?;
    Some([first, second, third, fourth])
}

fn push_dot(out: &mut ArrayVec<u8, ADDRESS_LIMIT>)
    requires room { length out.old.items + 1 ≤ ADDRESS_LIMIT }
    ensures value { out.new.items ≡ out.old.items ++ 46 ∷ [] }
    ensures len { length out.new.items ≡ length out.old.items + 1 }
{
    let _ = out.try_extend_from_slice(b".");
}

fn push_number(out: &mut ArrayVec<u8, ADDRESS_LIMIT>, n: u8)
    requires room { length out.old.items + 3 ≤ ADDRESS_LIMIT }
    ensures value { out.new.items ≡ out.old.items ++ decimal n }
    ensures len { length out.new.items ≤ length out.old.items + 3 }
{
    let mut buffer = Buffer::new();
    let _ = out.try_extend_from_slice(buffer.format(n).as_bytes());
}

/// Writes an IPv4 address in dotted decimal, without leading zeros (at most 15 bytes).
#[tactic(auto, using(crate::proofs::AddressLemmas::lengths))]
pub fn address_text(address: [u8; 4]) -> ArrayVec<u8, ADDRESS_LIMIT>
    ensures value { result.items ≡ address_text address }
    ensures short { length result.items ≤ ADDRESS_LIMIT }
{
    let [a, b, c, d] = address;
    let mut out = ArrayVec::new();
    push_number(&mut out, a);
    push_dot(&mut out);
    push_number(&mut out, b);
    push_dot(&mut out);
    push_number(&mut out, c);
    push_dot(&mut out);
    push_number(&mut out, d);
    out
}
