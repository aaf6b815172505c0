use crate::media::Media;
use mg_words::{ErrorNumber, Stats};

/// What a reply reports about a successful command. The default is nothing.
#[derive(Clone, Copy, Debug, Default, PartialEq, Eq)]
pub struct Parts {
    pub media: Option<Media>,
    pub statistics: Option<Stats>,
}

/// The outcome of a command.
#[derive(Clone, Copy, Debug, PartialEq, Eq)]
pub enum Outcome {
    Failed(ErrorNumber),
    Done(Parts),
}
