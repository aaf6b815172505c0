use mg_core::Config;
use mg_service::Service;

/// A gateway on sockets that an operator requests.
#[derive(Clone, Copy)]
pub struct Requested<'a> {
    /// The configuration before any of its numbers are drawn.
    pub config: Config,
    pub service: &'a Service,
    /// Whether the initial numbers of a new gateway's RTP packets that no option sets are drawn at random.
    pub draws: bool,
}
