ghost use Rattle.std.specs.Prelude.{◌≡◌, ◌↔◌, IsTrue};
ghost use Rattle.mg_rooms.specs.Limits.{AreValidLimits};

use mg_rooms::{Limits, TERMINATION_LIMIT};

/// The configuration of a gateway.
///
/// The media ports are the even ports `base_port`, `base_port + 2`, .. up to `base_port + 2 * (slots - 1)`.
#[derive(Clone, Copy, Debug, PartialEq, Eq)]
pub struct Config {
    /// The IPv4 address for media, used in session descriptions.
    pub address: [u8; 4],
    /// The IPv4 address for control messages, also used as the gateway's name in its messages.
    pub control_address: [u8; 4],
    /// The UDP port for control messages.
    pub control_port: u16,
    /// The first UDP port for media.
    pub base_port: u16,
    /// The number of media ports, from 1 to [`TERMINATION_LIMIT`].
    pub slots: u16,
    /// The number of the first termination.
    pub first_termination: u32,
    /// The number of the first context.
    pub first_context: u32,
    /// The SSRC of termination n is this number plus n, modulo 2^32.
    pub ssrc: u32,
    /// The sequence number of a termination's first packet.
    pub sequence: u16,
    /// The timestamp of a termination's first tick.
    pub timestamp: u32,
}

impl Default for Config {
    ghost use Rattle.std.specs.Prelude.{◌≡◌};
    ghost use Rattle.mg_engine.specs.Config.{standard};

    ghost is_default = { λ config. config ≡ standard };

    fn default() -> Self {
        Config {
            address: [127, 0, 0, 1],
            control_address: [127, 0, 0, 1],
            control_port: 2944,
            base_port: 30000,
            slots: TERMINATION_LIMIT as u16,
            first_termination: 1,
            first_context: 1,
            ssrc: 0,
            sequence: 0,
            timestamp: 0,
        }
    }
}

impl Config {
    ghost use Rattle.mg_engine.specs.Config.{IsValidConfig, HasControlPort, limits_of};

    /// Returns whether a gateway can start with this configuration.
    ///
    /// The media ports must be even, not 0 and at most 65535. There must be 1 to [`TERMINATION_LIMIT`] of them, and the
    /// control port must be neither 0 nor one of them. The numbers of the first termination and the first context must
    /// be in range.
    pub fn is_sound(&self) -> bool
        ensures value { IsTrue result ↔ IsValidConfig self.now }
    {
        self.limits().is_valid() && self.has_control_port()
    }

    /// Returns the limits on terminations and contexts.
    pub fn limits(&self) -> Limits
        ensures value { result ≡ limits_of self.now }
    {
        Limits {
            address: self.address,
            base_port: self.base_port,
            slots: self.slots,
            first_termination: self.first_termination,
            first_context: self.first_context,
        }
    }

    /// Returns whether the control port is not 0 and not a media port.
    fn has_control_port(&self) -> bool
        requires limits { AreValidLimits (limits_of self.now) }
        ensures value { IsTrue result ↔ HasControlPort self.now }
    {
        self.control_port != 0 && self.limits().slot_at(self.control_port).is_none()
    }
}
