/// Whether a play list is idle, waiting or playing.
#[derive(Clone, Copy, Debug, PartialEq, Eq, Hash)]
pub enum Phase {
    /// The play list plays silence until a frame starts it.
    Idle,
    /// The play list has started, and plays silence for this many ticks (at least one).
    Wait(u8),
    /// The play list plays the next frame in each tick, if the frame has arrived.
    Run,
}
