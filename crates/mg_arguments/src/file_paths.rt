ghost use Rattle.std.specs.Prelude.{◌≡◌, ◌≢◌, [], MatchBool, drop, map};
ghost use Rattle.mg_service.specs.FilePath.{file_path};
ghost use Rattle.mg_service.specs.Read.{all_read};
ghost use Rattle.mg_arguments.specs.aids.Options.{PathsAre};

use crate::option_fault::OptionFault;
use mg_service::FilePath;
use std::alloc::Global;
use std::marker::Model;

/// The paths of several files.
#[derive(Drop)]
pub struct FilePaths {
    paths: Vec<FilePath>,
}

impl Model for FilePaths {
    ghost use Rattle.std.specs.Prelude.{List, ℕ};

    ghost Value = { List (List ℕ) };

    ghost view = { λ p. p.paths.items };
}

impl FilePaths {
    /// Creates paths from all strings but the first. Fails if such a string is empty or too long.
    pub(crate) fn after_first(alloc: Global, texts: &[&str]) -> Result<Self, OptionFault>
        ensures value { PathsAre (all_read file_path (map (λ text. text.now) (drop 1 texts.now))) result }
    {
        let mut paths = Vec::new(alloc);
        for place in 1..texts.len() {
            match FilePath::of(texts[place]) {
                Ok(path) => {
                    if paths.push(path).is_err() {
                        return Err(OptionFault::NoMemory);
                    }
                }
                Err(fault) => return Err(OptionFault::Invalid(fault.script_message())),
            }
        }
        Ok(FilePaths { paths })
    }

    /// Creates an empty list.
    pub(crate) fn none(alloc: Global) -> Self
        ensures value { result ≡ [] }
    {
        FilePaths {
            paths: Vec::new(alloc),
        }
    }

    pub fn is_empty(&self) -> bool
        ensures value { MatchBool result (self.now ≡ []) (self.now ≢ []) }
    {
        match self.paths.as_slice() {
            [] => true,
            _ => false,
        }
    }

    pub fn as_slice(&self) -> &[FilePath]
        ensures value { result.now ≡ self.now }
    {
        self.paths.as_slice()
    }
}
