use crate::setup::Setup;
use std::alloc::Global;

/// What a session starts with, except for the gateway.
#[derive(Drop)]
pub(crate) struct Terms<'a> {
    pub(crate) alloc: Global,
    pub(crate) setup: &'a Setup<'a>,
    pub(crate) title: Option<&'a [u8]>,
}
