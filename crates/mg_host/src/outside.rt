use crate::environment::Environment;

/// The host of a program and its streams.
#[derive(Drop)]
pub struct Outside<E: Environment> {
    pub host: E::Host,
    pub input: E::Input,
    pub output: E::Output,
    /// Receives error messages.
    pub errors: E::Errors,
    /// Receives a gateway's reports.
    pub reports: E::Reports,
}
