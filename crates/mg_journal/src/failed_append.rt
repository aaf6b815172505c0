use crate::append_fault::AppendFault;
use std::io;

/// A failed append, and the error that caused it.
#[derive(Drop)]
pub(crate) struct FailedAppend {
    pub(crate) fault: AppendFault,
    pub(crate) error: io::Error,
}
