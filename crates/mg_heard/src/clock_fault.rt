use thiserror::Error;

/// The reason why a clock cannot continue a script.
#[derive(Clone, Copy, Debug, PartialEq, Eq, Error)]
pub enum ClockFault {
    /// The line with this number, counted from 1, is the title of another gateway.
    #[error("line {0}: the title of another gateway")]
    OtherGateway(u64),
    /// The script has 2^64 ticks or more. A reader that runs each tick also reports this for a line with too many
    /// ticks.
    #[error("too many ticks")]
    TooManyTicks,
}
