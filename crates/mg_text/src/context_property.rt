use crate::tree_list::TreeList;
use mg_scan::Span;
use mg_words::Association;

/// A topology triple: the spans of two names, and who hears whom.
#[derive(Clone, Copy, Debug, PartialEq, Eq)]
pub struct NamedTriple {
    pub first: Span,
    pub second: Span,
    pub association: Association,
}

/// A context property that a ContextAudit asks for (RFC 3525, Annex B.2, contextAuditProperties).
#[derive(Clone, Copy, Debug, PartialEq, Eq)]
pub enum ContextWord {
    Topology,
    Priority,
    Emergency,
}

/// A property of an action's context. An action's properties come before its commands (RFC 3525, Annex B.2,
/// contextRequest).
#[derive(Drop)]
pub enum ContextProperty {
    Topology(TreeList<NamedTriple>),
    ContextAudit(TreeList<ContextWord>),
    /// The span of the priority.
    Priority(Span),
    /// The span of the word after the equals sign, or `None` if there is no equals sign.
    Emergency(Option<Span>),
}
