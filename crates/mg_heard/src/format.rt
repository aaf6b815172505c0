/// The format in which intervals and gaps are written.
#[derive(Clone, Copy, Debug, PartialEq, Eq)]
pub enum Format {
    /// One sentence per line.
    Text,
    /// Comma-separated values, after a line with the names of the columns (RFC 4180).
    Csv,
    /// One JSON object per line.
    Json,
    /// An HTML table that isn't closed, with one row per line. Answers and violations are sentences.
    Page,
}
