/// The output that is written for each event of a script.
#[derive(Clone, Copy, Debug, PartialEq, Eq)]
pub enum Shown {
    /// The datagrams that are sent in response to the event.
    Sent,
    /// The datagrams, followed by comment lines that report changes to the terminations and to who hears whom.
    SentAndFlows,
}
