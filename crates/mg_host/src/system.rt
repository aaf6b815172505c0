use crate::environment::Environment;
use std::alloc::Global;

/// The parts of the operating system that a program uses in addition to its host and its streams.
#[derive(Drop)]
pub struct System<'a, E: Environment> {
    pub alloc: Global,
    /// The network for `check`. A gateway uses the network only through its host.
    pub net: &'a E::Net,
    pub clock: &'a E::Clock,
    pub random: &'a E::Random,
    pub files: &'a E::Files,
}
