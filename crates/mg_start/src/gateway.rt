use mg_core::{Config, Core};
use mg_service::Service;
use std::alloc::Global;

/// A gateway that can run, with its options.
#[derive(Drop)]
pub struct Gateway<'a> {
    pub alloc: Global,
    pub config: Config,
    pub core: Core,
    /// The number that the journal's messages have reached, or 0 without a journal. A fence begins at this number
    /// unless an operator sets it.
    pub reached: u32,
    pub service: &'a Service,
}
