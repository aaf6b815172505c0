use mg_core::Config;

/// The gateway that a script's events are run on, when it begins.
#[derive(Drop)]
pub(crate) struct Start {
    pub(crate) config: Config,
    /// The checkpoint that the gateway goes on from, or `None` if the gateway is new.
    pub(crate) checkpoint: Option<Vec<u8>>,
}
