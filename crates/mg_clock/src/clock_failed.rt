use thiserror::Error;

/// A clock couldn't be read.
#[derive(Clone, Copy, Debug, PartialEq, Eq, Error)]
#[error("cannot read the clock")]
pub struct ClockFailed;
