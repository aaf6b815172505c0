use mg_dates::Date;
use mg_heard::{Query, Style};

/// A question about a script, and the style of its answer.
#[derive(Drop)]
pub(crate) struct Question {
    pub(crate) style: Style,
    pub(crate) query: Query,
    /// The single time that the question is about, or `None` if it asks for intervals.
    pub(crate) at: Option<Date>,
}
