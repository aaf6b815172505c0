use crate::file_paths::FilePaths;
use crate::printing::Printing;
use crate::rules::Rules;
use mg_service::FilePath;

/// A request to check whether a script obeys rules.
#[derive(Drop)]
pub struct WatchRequest {
    /// The script's file, or `None` for standard input.
    pub file: Option<FilePath>,
    /// The files that follow the script's file, oldest first.
    pub later: FilePaths,
    pub printing: Printing,
    pub rules: Rules,
}
