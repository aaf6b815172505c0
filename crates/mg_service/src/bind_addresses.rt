ghost use Rattle.std.specs.Prelude.{◌≡◌, [], map};
ghost use Rattle.mg_service.specs.Address.{bind_addresses_of};

use crate::address::bind_address;
use crate::bind_address_fault::BindAddressFault;
use arrayvec::ArrayVec;
use std::marker::Model;

/// The maximum number of addresses to bind sockets to.
pub const MAX_BIND_ADDRESSES: usize = 8;

/// The addresses to bind sockets to, at most eight. All ports are bound to the first address, and the control port also
/// to each further one. If the list is empty, the ports are bound to the addresses that callers and controllers send to.
#[derive(Drop)]
pub struct BindAddresses {
    addresses: ArrayVec<[u8; 4], MAX_BIND_ADDRESSES>,
}

impl Model for BindAddresses {
    ghost use Rattle.std.specs.Prelude.{List, ℕ};

    ghost Value = { List (List ℕ) };

    ghost view = { λ b. b.addresses.items };
}

impl BindAddresses {
    /// Parses IPv4 addresses in dotted decimal.
    pub fn of(texts: &[&str]) -> Result<Self, BindAddressFault>
        ensures value { result ≡ bind_addresses_of (map (λ text. text.now) texts.now) }
    {
        if texts.len() > MAX_BIND_ADDRESSES {
            return Err(BindAddressFault::TooMany);
        }
        let mut addresses = ArrayVec::new();
        for text in texts {
            match bind_address(text) {
                Ok(address) => addresses.push(address),
                Err(fault) => return Err(fault),
            }
        }
        Ok(BindAddresses { addresses })
    }

    pub fn as_slice(&self) -> &[[u8; 4]]
        ensures value { result.now ≡ self.now }
    {
        self.addresses.as_slice()
    }
}
