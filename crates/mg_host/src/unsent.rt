/// The reason why a gateway didn't send a packet.
#[derive(Clone, Copy, Debug, PartialEq, Eq)]
pub enum Unsent {
    /// The tick is late.
    Late,
    /// No caller can have the destination's address: it is 0.0.0.0, which puts a call on hold, or a multicast, reserved
    /// or broadcast address.
    Held,
}
