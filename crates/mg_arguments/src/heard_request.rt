use crate::file_paths::FilePaths;
use crate::printing::Printing;
use mg_dates::Date;
use mg_heard::AskedQuery;
use mg_service::FilePath;

/// A question about a script: a journal or a recording.
#[derive(Drop)]
pub struct HeardRequest {
    /// The script's file, or `None` for standard input.
    pub file: Option<FilePath>,
    /// The files that follow the script's file, oldest first.
    pub later: FilePaths,
    pub printing: Printing,
    pub query: AskedQuery,
    /// The single time that the question is about, or `None` if it asks for intervals.
    pub at: Option<Date>,
}
