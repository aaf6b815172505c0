use mg_g711::Law;
use mg_topology::mask::Mask;

/// A packet of this tick whose payload other listeners in the room can share.
#[derive(Clone, Copy, Debug, PartialEq, Eq)]
pub struct Share {
    /// The seats of the talkers whose speech flows to the packet's listener.
    pub talkers: Mask,
    /// The law with which the payload is encoded.
    pub law: Law,
    /// The packet's index in the outbox.
    pub packet: u8,
}

/// The default is the first packet of an outbox, for a listener that hears nobody.
impl Default for Share {
    ghost use Rattle.std.specs.Prelude.{◌≡◌};
    ghost use Rattle.mg_engine.specs.aids.Shares.{first_share};

    ghost is_default = { λ share. share ≡ first_share };

    fn default() -> Self {
        Share {
            talkers: 0,
            law: Law::Mu,
            packet: 0,
        }
    }
}
