ghost use Rattle.std.specs.Prelude.{◌≡◌};
ghost use Rattle.mg_service.specs.FilePath.{file_path};

use crate::file_path_fault::FilePathFault;
use arrayvec::ArrayString;
use std::marker::Model;

/// The maximum length of a path, in bytes. The system's limit is 4,095, and temporary files have longer names.
const MAX_PATH: usize = 4000;

/// The path of a file.
#[derive(Drop)]
pub struct FilePath {
    text: ArrayString<MAX_PATH>,
}

impl Model for FilePath {
    ghost use Rattle.std.specs.Prelude.{List, ℕ};

    ghost Value = { List ℕ };

    ghost view = { λ p. p.text.bytes };
}

impl FilePath {
    /// Creates a path from a string. Fails if the string is empty or too long.
    pub fn of(text: &str) -> Result<Self, FilePathFault>
        ensures value { result ≡ file_path text.now }
    {
        if text.is_empty() {
            return Err(FilePathFault::Empty);
        }
        match ArrayString::from(text) {
            Ok(text) => Ok(FilePath { text }),
            Err(_) => Err(FilePathFault::TooLong),
        }
    }

    pub fn as_str(&self) -> &str
        ensures value { result.now ≡ self.now }
    {
        self.text.as_str()
    }
}
