use crate::gap::Gap;
use crate::interval::Interval;

/// An entry that a sink receives: an interval when it ends or when the script ends, or a gap when it begins.
#[derive(Clone, Copy, Debug, PartialEq, Eq)]
pub enum Entry {
    /// The listener could hear the talker.
    Interval(Interval),
    Gap(Gap),
    /// The listener heard the talker: in each tick, the talker's speech changed what the gateway sent to the listener.
    Audible(Interval),
}
