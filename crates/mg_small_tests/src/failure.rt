use std::io::{self, ErrorKind};

/// Returns the kind of an error, or `None` if there was no error.
pub fn kind<T: Drop>(outcome: io::Result<T>) -> Option<ErrorKind> {
    match outcome {
        Ok(_) => None,
        Err(error) => Some(error.kind()),
    }
}
