/// The place of a member: a room of the gateway, and a seat in it.
///
/// A room belongs to a context, and a seat to one of its members. The room can be reused after the context has ended,
/// and the seat after the member has left.
#[derive(Clone, Copy, Debug, PartialEq, Eq, Hash)]
pub struct Place {
    /// The room, below [`CONTEXT_LIMIT`](mg_words::CONTEXT_LIMIT).
    pub room: u8,
    /// The seat, below [`SEATS`](mg_topology::SEATS).
    pub seat: u8,
}
