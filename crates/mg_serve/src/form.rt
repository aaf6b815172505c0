/// The form of a session's output.
#[derive(Clone, Copy, Debug, PartialEq, Eq)]
pub enum Form {
    /// Lines for the gateway's driver.
    Plain,
    /// A script: one line for each event, and comments.
    Recording,
}
