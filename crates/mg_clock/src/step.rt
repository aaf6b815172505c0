use crate::timing::Timing;

/// The reason why a schedule stopped waiting.
#[derive(Clone, Copy, Debug, PartialEq, Eq)]
pub enum Step {
    /// A message arrived before the next tick was due.
    Message,
    /// The next tick begins.
    Tick(Timing),
}
