ghost use Rattle.std.specs.Prelude.{◌≡◌, [], map};
ghost use Rattle.mg_service.specs.Controllers.{controllers_of};

use crate::controller_fault::ControllerFault;
use arrayvec::ArrayVec;
use mg_words::address_of;
use std::marker::Model;

/// The maximum number of controllers that can be listed.
const MAX_CONTROLLERS: usize = 8;

/// The addresses of the controllers, at most eight. If the list is empty, anybody may send commands to the gateway.
#[derive(Drop)]
pub struct Controllers {
    addresses: ArrayVec<[u8; 4], MAX_CONTROLLERS>,
}

impl Model for Controllers {
    ghost use Rattle.std.specs.Prelude.{List, ℕ};

    ghost Value = { List (List ℕ) };

    ghost view = { λ c. c.addresses.items };
}

impl Controllers {
    /// Parses IPv4 addresses in dotted decimal.
    pub fn of(texts: &[&str]) -> Result<Self, ControllerFault>
        ensures value { result ≡ controllers_of (map (λ text. text.now) texts.now) }
    {
        if texts.len() > MAX_CONTROLLERS {
            return Err(ControllerFault::TooMany);
        }
        let mut addresses = ArrayVec::new();
        for text in texts {
            let Some(address) = address_of(text.as_bytes()) else {
                return Err(ControllerFault::Unreadable);
            };
            addresses.push(address);
        }
        Ok(Controllers { addresses })
    }

    pub fn as_slice(&self) -> &[[u8; 4]]
        ensures value { result.now ≡ self.now }
    {
        self.addresses.as_slice()
    }
}
