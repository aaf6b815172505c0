/// The place in a play list where the frame of a packet belongs.
#[derive(Clone, Copy, Debug)]
pub(crate) enum Turn {
    /// The frame belongs at the first place, after a restart.
    Start,
    /// The frame is late: the play list has already passed its place.
    Late,
    /// The frame is a duplicate: its place already has a frame.
    Again,
    /// The frame belongs at this place.
    At(usize),
    /// The frame belongs at the last place, after a shift by this many places.
    Push(usize),
}
