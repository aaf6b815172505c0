/// The reason why a string can't be the path of a file.
#[derive(Clone, Copy, Debug, PartialEq, Eq)]
pub enum FilePathFault {
    /// The string is empty.
    Empty,
    /// The string has more than 4,000 bytes.
    TooLong,
}

impl FilePathFault {
    /// Returns the error text for the metrics file.
    pub fn metrics_message(self) -> &'static str {
        match self {
            FilePathFault::Empty => "invalid value for '--metrics <FILE>': an empty path",
            FilePathFault::TooLong => {
                "invalid value for '--metrics <FILE>': a path of more than 4000 bytes"
            }
        }
    }

    /// Returns the error text for a script's path.
    pub fn script_message(self) -> &'static str {
        match self {
            FilePathFault::Empty => "invalid value for '[FILE]': an empty path",
            FilePathFault::TooLong => {
                "invalid value for '[FILE]': a path of more than 4000 bytes"
            }
        }
    }

    /// Returns the error text for a file of names.
    pub fn names_message(self) -> &'static str {
        match self {
            FilePathFault::Empty => "invalid value for '--names <FILE>': an empty path",
            FilePathFault::TooLong => {
                "invalid value for '--names <FILE>': a path of more than 4000 bytes"
            }
        }
    }

    /// Returns the error text for the journal.
    pub fn journal_message(self) -> &'static str {
        match self {
            FilePathFault::Empty => "invalid value for '--journal <FILE>': an empty path",
            FilePathFault::TooLong => {
                "invalid value for '--journal <FILE>': a path of more than 4000 bytes"
            }
        }
    }
}
