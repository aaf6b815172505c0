//! Where a checkpoint begins and ends in a longer text.

/// Returns whether a text begins like the first line of a checkpoint.
pub fn begins_checkpoint(text: &[u8]) -> bool {
    text.starts_with(b"checkpoint after ")
}

/// Returns whether a line begins like the last line of a checkpoint. No other line of a checkpoint begins like that.
pub fn ends_checkpoint(line: &[u8]) -> bool {
    line.starts_with(b"end after ")
}
