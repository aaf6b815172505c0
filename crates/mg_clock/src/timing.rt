/// Whether a tick begins on time, so that its packets are still worth sending.
#[derive(Clone, Copy, Debug, PartialEq, Eq)]
pub enum Timing {
    OnTime,
    Late,
}
