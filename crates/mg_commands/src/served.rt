use mg_engine::Target;
use mg_reply::Parts;
use mg_text::Term;

/// The result of a successful command.
#[derive(Drop)]
pub struct Served {
    /// The action's context after the command.
    pub target: Target,
    /// The termination that the command created, if any.
    pub made: Option<u32>,
    /// The termination's name, as the reply spells it.
    pub term: Term,
    /// The parts with which the reply reports about the termination.
    pub parts: Parts,
}
