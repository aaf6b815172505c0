ghost use Rattle.std.specs.Prelude.{◌≡◌};
ghost use Rattle.mg_sdp.specs.Fields.{fields_of};
ghost use Rattle.mg_sdp.specs.Media.{requested_in_field};
ghost use Rattle.mg_sdp.specs.Connection.{connection_in};
ghost use Rattle.mg_words.specs.Address.{address_of};

use crate::fields::Fields;
use mg_words::address_of;

/// Parses the address field: `$` or an IPv4 address. Returns `None` if it is neither, and `Some(None)` for `$`.
fn requested_address(field: &[u8]) -> Option<Option<[u8; 4]>>
    ensures value { result ≡ requested_in_field address_of field.now }
{
    match field {
        b"$" => Some(None),
        _ => Some(Some(address_of(field)?)),
    }
}

/// Parses the value of a connection line. Returns `None` if the line is not supported, and `Some(None)` if it leaves
/// the address to the gateway.
#[tactic(auto, unfolding(crate::specs::Connection::connection_in))]
pub fn connection_of(value: &[u8]) -> Option<Option<[u8; 4]>>
    ensures value { result ≡ connection_in (fields_of value.now) }
{
    let mut fields = Fields::new(value);
    let network = fields.next()?;
    let kind = fields.next()?;
    let address = fields.next()?;
    if fields.next().is_some() {
        return None;
    }
    if !network.eq_ignore_ascii_case(b"IN") || !kind.eq_ignore_ascii_case(b"IP4") {
        return None;
    }
    requested_address(address)
}
