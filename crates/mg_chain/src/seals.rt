use crate::chain::END;

/// The counts of seals and lines in a text, the line numbers of the first invalid and the last valid seal, and what the
/// text says of the text that it follows.
#[derive(Clone, Copy, Debug, PartialEq, Eq)]
pub struct Seals {
    /// How many seals are valid, up to the first invalid seal.
    pub count: u64,
    /// The line number of the last valid seal before any invalid seal, or `None` if there is no such seal.
    pub right: Option<u64>,
    /// The line number of the first invalid seal, or `None` if no seal is invalid.
    pub wrong: Option<u64>,
    /// How many lines the text has. The last line may lack its line feed.
    pub lines: u64,
    /// The end of the first line that begins with `# follows`: the digits of a hash and a line feed. `None` if there is
    /// no such line.
    pub follows: Option<[u8; END]>,
}
