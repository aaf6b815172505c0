ghost use Rattle.std.specs.Prelude.{◌≡◌, ◌<◌, ◌↔◌, IsTrue};
ghost use Rattle.mg_rooms.specs.Limits.{slot_port, slot_at, AreValidLimits, HasPool, HasFirstNumbers};

use mg_words::{LAST_CONTEXT, TERMINATION_LIMIT};

/// The limits on a gateway's terminations and contexts.
#[derive(Clone, Copy, Debug, PartialEq, Eq)]
pub struct Limits {
    /// The gateway's own IPv4 address.
    pub address: [u8; 4],
    /// The UDP port of slot 0. It must be even. Slot s has the port `base_port + 2 * s`.
    pub base_port: u16,
    /// The number of slots, from 1 to [`TERMINATION_LIMIT`].
    pub slots: u16,
    /// The number of the first termination.
    pub first_termination: u32,
    /// The number of the first context.
    pub first_context: u32,
}

impl Limits {
    /// Returns whether a gateway can start with these limits.
    ///
    /// There must be 1 to [`TERMINATION_LIMIT`] slots with even UDP ports. The numbers of the first termination and the
    /// first context must be in range.
    pub fn is_valid(&self) -> bool
        ensures value { IsTrue result ↔ AreValidLimits self.now }
    {
        self.has_pool() && self.has_first_numbers()
    }

    /// Returns the UDP port of a slot.
    pub fn slot_port(&self, slot: u8) -> u16
        requires valid { AreValidLimits self.now }
        requires slot { slot < self.now.slots }
        ensures value { result ≡ slot_port self.now slot }
    {
        self.base_port + 2 * u16::from(slot)
    }

    /// Returns the slot of a UDP port, or `None` if no slot has this port.
    pub fn slot_at(&self, port: u16) -> Option<u8>
        requires valid { AreValidLimits self.now }
        ensures value { result ≡ slot_at self.now port }
    {
        let slot = port.saturating_sub(self.base_port) / 2;
        if slot < self.slots && self.slot_port(slot as u8) == port {
            Some(slot as u8)
        } else {
            None
        }
    }

    fn has_pool(&self) -> bool
        ensures value { IsTrue result ↔ HasPool self.now }
    {
        if self.slots == 0 || usize::from(self.slots) > TERMINATION_LIMIT {
            return false;
        }
        let last = u32::from(self.base_port) + 2 * (u32::from(self.slots) - 1);
        self.base_port != 0 && self.base_port % 2 == 0 && last <= 65535
    }

    fn has_first_numbers(&self) -> bool
        ensures value { IsTrue result ↔ HasFirstNumbers self.now }
    {
        self.first_termination != 0 && self.first_context != 0 && self.first_context <= LAST_CONTEXT
    }
}
