use crate::topology_triple::TopologyTriples;
use mg_rooms::{Settings, Target};

/// A change that a command asks the gateway to make. The target is the action's context (RFC 3525, section 7.2).
#[derive(Debug, Drop)]
pub enum Edit {
    /// Creates a termination in the context.
    Add {
        target: Target,
        settings: Settings,
    },
    /// Changes a member of the context.
    Modify {
        target: Target,
        number: u32,
        settings: Settings,
    },
    /// Moves a termination from its context to the target.
    Move {
        target: Target,
        number: u32,
        settings: Settings,
    },
    /// Removes a member from the context, and ends its termination.
    Subtract {
        target: Target,
        number: u32,
    },
    /// Sets who hears whom among the members of the context (RFC 3525, section 7.1.18).
    Triples {
        target: Target,
        triples: TopologyTriples,
    },
}
