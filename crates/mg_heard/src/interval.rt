use crate::moment::Moment;
use crate::open_flow::OpenFlow;

/// A period in which a talker's speech flowed to a listener: before each tick from `first` on, up to but not including
/// `end`. In an `Audible` entry, it is a period in which the listener heard the talker. The definitions
/// (`specs/Intervals.antt`) leave out the dates.
#[derive(Clone, Copy, Debug, PartialEq, Eq)]
pub struct Interval {
    pub flow: OpenFlow,
    pub first: Moment,
    /// The first tick that the interval no longer contains, or `None` if the flow was still open at the end of the
    /// script.
    pub end: Option<Moment>,
}
