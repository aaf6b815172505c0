use crate::fault_effect::FaultEffect;
use crate::file_call::FileCall;

/// A fault that a file in memory injects into one of its calls.
#[derive(Clone, Copy, Debug, PartialEq, Eq)]
pub struct InjectedFault {
    pub call: FileCall,
    /// The number of the call among the calls of its kind, counted from 0.
    pub number: u64,
    pub effect: FaultEffect,
}
