use arrayvec::{ArrayString, ArrayVec};
use mg_monitor::Sink;
use mg_service::FilePath;
use std::fs::{self, Files};
use std::io::{self, ErrorKind, Write};

/// The maximum length of a temporary file's path, in bytes.
const MAX_PATH: usize = 4095;

/// The maximum length of an error line, in bytes: a path and the system's reason.
const LINE_ROOM: usize = 5000;

/// A file for metrics. Metrics are first written to a temporary file, which is then renamed, so a reader of the metrics
/// file never sees incomplete text.
///
/// A failure is reported to the operator only if it is the first failure, or the first one after a success.
#[derive(Drop)]
pub struct MetricsFile<'a, F: Files, E: Write> {
    files: &'a F,
    path: &'a FilePath,
    has_failed: bool,
    errors: &'a mut E,
}

impl<'a, F: Files, E: Write> MetricsFile<'a, F, E> {
    pub fn new(files: &'a F, path: &'a FilePath, errors: &'a mut E) -> Self {
        MetricsFile {
            files,
            path,
            has_failed: false,
            errors,
        }
    }

    /// Replaces the file's text.
    fn replace(&self, text: &[u8]) -> io::Result<()> {
        let temporary = temporary_path(self.path);
        fs::write(self.files, temporary.as_str(), text)?;
        fs::rename(self.files, temporary.as_str(), self.path.as_str())
    }
}

impl<'a, F: Files, E: Write> Sink for MetricsFile<'a, F, E> {
    fn put(&mut self, text: &[u8]) {
        let replaced = self.replace(text);
        if let (false, Err(error)) = (self.has_failed, &replaced) {
            let path = self.path.as_str();
            let mut line = ArrayVec::<u8, LINE_ROOM>::new();
            let _ = writeln!(line, "cannot write {path}: {error}");
            let _ = self.errors.write_all(line.as_slice());
            let _ = self.errors.flush();
        }
        self.has_failed = replaced.is_err();
    }
}

/// Returns the path of the temporary file for metrics.
fn temporary_path(path: &FilePath) -> ArrayString<MAX_PATH> {
    let mut temporary = ArrayString::new();
    let _ = temporary.try_push_str(path.as_str());
    let _ = temporary.try_push_str(".new");
    temporary
}

/// Returns whether metrics with this path would replace the journal, judging by the two paths alone.
pub fn replaces_journal(path: &FilePath, journal: &Option<FilePath>) -> bool {
    let Some(journal) = journal else {
        return false;
    };
    journal.as_str() == path.as_str() || journal.as_str() == temporary_path(path).as_str()
}

/// Returns whether there is a folder with this path.
fn is_folder<F: Files>(files: &F, path: &FilePath) -> bool {
    match fs::metadata(files, path.as_str()) {
        Ok(found) => found.is_dir(),
        Err(_) => false,
    }
}

/// Checks that metrics can be written: no folder has this path, and the temporary file next to it can be created.
pub fn can_write_metrics<F: Files>(files: &F, path: &FilePath) -> io::Result<()> {
    if is_folder(files, path) {
        return Err(io::Error::from(ErrorKind::IsADirectory));
    }
    let _file = fs::create(files, temporary_path(path).as_str())?;
    Ok(())
}
