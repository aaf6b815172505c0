use mg_clock::Watch;

/// The clock that drives a gateway.
#[derive(Drop)]
pub struct Timer<K: Watch> {
    pub watch: K,
    /// The maximum lateness of a tick, in ticks: if a tick is later than that, ports on a network don't send its
    /// packets.
    pub late: u16,
}
