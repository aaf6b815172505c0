use crate::moment::Moment;
use crate::open_flow::OpenFlow;

/// A flow that a rule forbids, and the first tick before which it was open.
#[derive(Clone, Copy, Debug, PartialEq, Eq)]
pub struct Violation {
    pub flow: OpenFlow,
    pub at: Moment,
}
