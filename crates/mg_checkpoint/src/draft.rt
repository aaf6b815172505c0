use crate::context_line::ContextLine;
use crate::listener_line::ListenerLine;
use crate::reply_line::ReplyLine;
use crate::termination_line::TerminationLine;
use std::alloc::Global;

/// What the lines of a checkpoint say, before a gateway is made from them.
#[derive(Drop)]
pub struct Draft {
    pub control: u64,
    pub ticks: u64,
    pub next_termination: u64,
    pub next_context: u64,
    pub contexts: Vec<ContextLine>,
    pub terminations: Vec<TerminationLine>,
    pub listeners: Vec<ListenerLine>,
    pub replies: Vec<ReplyLine>,
}

impl Draft {
    /// Returns an empty draft. Doesn't allocate.
    pub fn new(alloc: Global) -> Draft {
        Draft {
            control: 0,
            ticks: 0,
            next_termination: 0,
            next_context: 0,
            contexts: Vec::new(alloc),
            terminations: Vec::new(alloc),
            listeners: Vec::new(alloc),
            replies: Vec::new(alloc),
        }
    }
}
