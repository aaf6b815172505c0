use mg_engine::Target;

/// The progress of an action.
#[derive(Clone, Copy)]
pub struct Progress {
    /// The action's context so far.
    pub target: Target,
    /// The first termination that an Add of the action created, if any.
    pub made: Option<u32>,
}
