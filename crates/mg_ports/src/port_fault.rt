use thiserror::Error;

/// A receive or a send failed.
#[derive(Clone, Copy, Debug, PartialEq, Eq, Error)]
#[error("a port failed")]
pub struct PortFault;
