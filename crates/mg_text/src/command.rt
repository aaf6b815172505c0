use crate::descriptor::Descriptor;
use crate::tree_list::TreeList;
use mg_scan::Span;
use mg_words::CommandWord;

/// A command, the termination that it names, and its descriptors in order.
#[derive(Drop)]
pub struct Command {
    pub word: CommandWord,
    /// Whether the command has the prefix `O-`: if it fails, the next commands are still tried.
    pub is_optional: bool,
    /// Whether the command has the prefix `W-`, which may follow `O-` and requests one answer for all matching
    /// terminations.
    pub wants_wildcard: bool,
    /// The span of the termination's name: a word of 1 to 64 bytes.
    pub term: Span,
    /// The descriptors. A Subtract or AuditValue has at most one descriptor: an Audit. The descriptors of a Notify,
    /// ServiceChange or AuditCapability are not kept.
    pub descriptors: TreeList<Descriptor>,
}
