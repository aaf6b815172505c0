use mg_rooms::Record;

/// The result of a successful edit.
#[derive(Clone, Copy, Debug, PartialEq, Eq)]
pub enum Done {
    /// The termination after the edit or, for a Subtract, before it.
    Termination(Record),
    /// The topology of the context with this number.
    Topology(u32),
}
