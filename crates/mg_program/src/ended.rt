use mg_host::{Environment, Outside};
use mg_options::Status;

/// The exit status of a run, and the host and the streams that it used.
#[derive(Drop)]
pub struct Ended<E: Environment> {
    pub outside: Outside<E>,
    pub status: Status,
}
