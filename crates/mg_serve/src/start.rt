use crate::setup::Setup;
use mg_core::Core;
use std::alloc::Global;

/// What a session starts with.
#[derive(Drop)]
pub struct Start<'a> {
    pub alloc: Global,
    pub setup: &'a Setup<'a>,
    /// The gateway, which is new or was resumed from a journal.
    pub core: Core,
    /// The first line of the output, if the output is a recording.
    pub title: Option<&'a [u8]>,
}
