/// A report about the journal to a monitor. Without a journal, all numbers are 0.
#[derive(Clone, Copy, Debug, PartialEq, Eq)]
pub struct JournalReport {
    /// Ticks that have passed but are not in the journal yet.
    pub lacking: u64,
    /// Appends that failed.
    pub failed: u64,
    /// Control datagrams that were dropped because an append failed.
    pub unjournaled: u64,
    /// Renewals of the journal that failed.
    pub unrenewed: u64,
}
