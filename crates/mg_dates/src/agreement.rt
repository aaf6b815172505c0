/// How a date compares with the time computed from the ticks before it.
#[derive(Clone, Copy, Debug, PartialEq, Eq)]
pub enum Agreement {
    /// The date is the journal's first date.
    First,
    /// The date is within a second of the computed time.
    Agrees,
    /// The date is more than a second earlier than the computed time: the clock was set back, or ticks came too fast.
    WentBack,
    /// The date is more than a second later than the computed time: the clock was set ahead, or ticks are missing or
    /// late.
    JumpedAhead,
}
