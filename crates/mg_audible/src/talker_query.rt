use mg_heard::Query;

/// A talker, and a query that selects intervals in which the talker is audible.
#[derive(Drop)]
pub struct TalkerQuery {
    /// The number of the talker's termination.
    pub talker: u32,
    pub query: Query,
}
