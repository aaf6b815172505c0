/// A reader failed.
#[derive(Clone, Copy, Debug, PartialEq, Eq)]
pub struct ReadFailed;
