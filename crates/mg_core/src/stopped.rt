/// The error with which a [`Follower`](crate::Follower) ends a run. The follower has found what it was looking for, or
/// it can't write; it keeps the reason.
#[derive(Clone, Copy, Debug, PartialEq, Eq)]
pub struct Stopped;
