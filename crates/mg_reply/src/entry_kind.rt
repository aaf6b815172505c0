/// The kinds of entries in an action, in the order in which they are written.
#[derive(Clone, Copy, Debug, PartialEq, Eq)]
pub(crate) enum EntryKind {
    Triples,
    Commands,
    Faults,
}
