ghost use Rattle.std.specs.Prelude.{◌≡◌};

use crate::interval::Interval;
use crate::moment::Moment;
use crate::open_flow::OpenFlow;

/// An interval that has not ended.
#[derive(Clone, Copy, Debug, PartialEq, Eq)]
pub struct OpenInterval {
    pub flow: OpenFlow,
    pub first: Moment,
}

impl OpenInterval {
    /// Returns an interval that belongs to no flow.
    pub(crate) fn none() -> OpenInterval {
        OpenInterval {
            flow: OpenFlow {
                listener: 0,
                talker: 0,
                context: 0,
                listener_at: None,
                talker_at: None,
            },
            first: Moment {
                tick: 0,
                date: None,
            },
        }
    }

    /// Returns the interval with this end, or without an end if `end` is `None`.
    pub fn until(&self, end: Option<Moment>) -> Interval
        ensures value { result ≡ record { flow = self.now.flow; first = self.now.first; end = end } }
    {
        Interval {
            flow: self.flow,
            first: self.first,
            end,
        }
    }
}
