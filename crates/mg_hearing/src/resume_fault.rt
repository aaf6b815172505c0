use mg_checkpoint::RestoreFault;
use thiserror::Error;

/// The reason why no gateway goes on from the checkpoint of a script. Lines are counted from 1, which is the title.
#[derive(Clone, Copy, Debug, PartialEq, Eq, Error)]
pub enum ResumeFault {
    #[error("line 1: the title of a gateway with another configuration")]
    OtherGateway,
    #[error("{0}")]
    Checkpoint(RestoreFault),
    #[error("read failed")]
    Read,
    #[error("out of memory")]
    NoMemory,
}
