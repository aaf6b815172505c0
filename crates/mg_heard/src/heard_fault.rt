use crate::clock_fault::ClockFault;
use mg_core::RunFault;
use thiserror::Error;

/// The reason why a script doesn't say who could hear whom.
#[derive(Clone, Copy, Debug, PartialEq, Eq, Error)]
pub enum HeardFault {
    #[error("{0}")]
    Run(RunFault),
    #[error("{0}")]
    Clock(ClockFault),
    /// A sink has refused an entry.
    #[error("stopped")]
    Stopped,
    #[error("out of memory")]
    NoMemory,
}
