/// The result of placing a frame.
#[derive(Clone, Copy, Debug, PartialEq, Eq, Hash)]
pub enum Placed {
    /// The play list restarted with this frame, and dropped all others.
    Started,
    /// The frame was stored at the place for its sequence number.
    Placed,
    /// The frame was stored at the last place. The other frames moved down, and those that fell below place 0 were
    /// dropped.
    Pushed,
    /// The play list already had a frame with this sequence number. The new frame was dropped.
    Again,
    /// The play list had already passed this sequence number. The frame was dropped.
    Late,
}
