ghost use Rattle.std.specs.Prelude.{◌≡◌};
ghost use Rattle.mg_service.specs.Address.{bind_address, is_multicast, own_address};

use crate::bind_address_fault::BindAddressFault;
use mg_words::address_of;

/// The reason why a string can't be a gateway's own address, or the address from which a check sends messages.
#[derive(Clone, Copy, Debug, PartialEq, Eq)]
pub enum AddressFault {
    /// The string is not an IPv4 address in dotted decimal.
    Unreadable,
    /// The address is 0.0.0.0, which means all addresses of a machine, so nobody can send to it.
    Unspecified,
    /// The address is 224.0.0.0 or above: a multicast, reserved or broadcast address.
    Multicast,
}

impl AddressFault {
    /// Returns the error message for a bad media address.
    pub fn message(self) -> &'static str {
        match self {
            AddressFault::Unreadable => {
                "invalid value for '--address <ADDRESS>': not an IPv4 address in dotted decimal"
            }
            AddressFault::Multicast => {
                "invalid value for '--address <ADDRESS>': not a unicast address"
            }
            AddressFault::Unspecified => {
                "invalid value for '--address <ADDRESS>': callers cannot send to 0.0.0.0"
            }
        }
    }

    /// Returns the error message for a bad address to send from.
    pub fn source_message(self) -> &'static str {
        match self {
            AddressFault::Unreadable => {
                "invalid value for '--source <ADDRESS>': not an IPv4 address in dotted decimal"
            }
            AddressFault::Multicast => {
                "invalid value for '--source <ADDRESS>': not a unicast address"
            }
            AddressFault::Unspecified => {
                "invalid value for '--source <ADDRESS>': nobody can send from 0.0.0.0"
            }
        }
    }

    /// Returns the error message for a bad control address.
    pub fn control_message(self) -> &'static str {
        match self {
            AddressFault::Unreadable => {
                "invalid value for '--control-address <ADDRESS>': not an IPv4 address in dotted decimal"
            }
            AddressFault::Multicast => {
                "invalid value for '--control-address <ADDRESS>': not a unicast address"
            }
            AddressFault::Unspecified => {
                "invalid value for '--control-address <ADDRESS>': controllers cannot send to 0.0.0.0"
            }
        }
    }
}

/// Returns whether an address is 224.0.0.0 or above: multicast, reserved or broadcast.
pub fn is_multicast(address: [u8; 4]) -> bool
    ensures value { result ≡ is_multicast address }
{
    address[0] >= 224
}

/// Parses the address of a gateway, or the address from which a check sends messages: an IPv4 address in dotted
/// decimal, with leading zeros allowed.
pub fn own_address(text: &str) -> Result<[u8; 4], AddressFault>
    ensures value { result ≡ own_address text.now }
{
    match address_of(text.as_bytes()) {
        Some(address) if address == [0; 4] => Err(AddressFault::Unspecified),
        Some(address) if is_multicast(address) => Err(AddressFault::Multicast),
        Some(address) => Ok(address),
        None => Err(AddressFault::Unreadable),
    }
}

/// Parses an address to bind sockets to: an IPv4 address in dotted decimal, where 0.0.0.0 means all addresses of the
/// machine.
pub fn bind_address(text: &str) -> Result<[u8; 4], BindAddressFault>
    ensures value { result ≡ bind_address text.now }
{
    match address_of(text.as_bytes()) {
        Some(address) if is_multicast(address) => Err(BindAddressFault::Multicast),
        Some(address) => Ok(address),
        None => Err(BindAddressFault::Unreadable),
    }
}
