/// The numbers of failed receives and sends, by cause. A count that reaches its maximum stays there.
#[derive(Clone, Copy, Debug, Default, PartialEq, Eq)]
pub struct FailureCauses {
    /// Receive calls that the system refused.
    pub receives: u64,
    /// Packets of late ticks.
    pub late: u64,
    /// Packets to an address that no caller can have: 0.0.0.0, which puts a call on hold, or a multicast, reserved or
    /// broadcast address.
    pub held: u64,
    /// Send calls that the system refused.
    pub refused: u64,
}
