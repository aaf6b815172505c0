use arrayvec::ArrayString;
use mg_journal::JournalFile;
use std::fs::{File, Files, OpenFile, OpenOptions};
use std::io::{self, ErrorKind, Read, Seek, SeekFrom, Write};
use std::os::unix::fs::MetadataExt;

/// The maximum length of a path, in bytes.
const MAX_PATH: usize = 4095;

/// A path.
type Path = ArrayString<MAX_PATH>;

/// The maximum length of the end of a kept file's name, in bytes.
const MAX_SUFFIX: usize = 64;

/// The file of a journal on the disk. Contracts say nothing about the file, so its behavior is tested, not proved.
///
/// A sync has to put the file's name on the disk, too. Otherwise, after a power cut, the path may lead nowhere, or to
/// the file before a renewal. So a sync first syncs the folder if the file is new or was renamed.
#[derive(Drop)]
pub struct DiskFile<'a> {
    system: &'a HostRuntime,
    path: Path,
    file: File,
    /// Whether the file has been synced, as the text of a renewal is with `--sync`.
    is_synced: bool,
    /// Whether the folder has to be synced before the file's name is known to be on the disk.
    is_named_later: bool,
    /// The end of the other name that the file was given for the renewal that is under way.
    suffix: Option<ArrayString<MAX_SUFFIX>>,
}

/// Returns a path that begins and ends with these texts. Fails if the path is too long.
fn joined(front: &str, end: &str) -> io::Result<Path> {
    let mut path = ArrayString::new();
    match (path.try_push_str(front), path.try_push_str(end)) {
        (Ok(()), Ok(())) => Ok(path),
        _ => Err(io::Error::from(ErrorKind::InvalidInput)),
    }
}

/// Returns the path of a file next to another one, with this end after a dot.
fn beside(path: &str, end: &str) -> io::Result<Path> {
    let dotted = joined(path, ".")?;
    joined(dotted.as_str(), end)
}

/// Returns the folder of the file with this path.
fn folder_of(path: &str) -> &str {
    match path.rsplit_once('/') {
        Some(("", _)) => "/",
        Some((folder, _)) => folder,
        None => ".",
    }
}

/// Waits until the names in a folder are on the disk. Does nothing if the file system can't sync folders.
fn sync_folder(system: &HostRuntime, path: &str) -> io::Result<()> {
    let folder = OpenOptions::new().read(true).open(system, folder_of(path))?;
    match folder.sync_all() {
        Err(error) if error.kind() != ErrorKind::InvalidInput => Err(error),
        _ => Ok(()),
    }
}

/// Opens a file for reads and appends, and locks it. Creates the file if it doesn't exist.
fn open_locked(system: &HostRuntime, path: &str) -> io::Result<File> {
    let file = OpenOptions::new()
        .read(true)
        .append(true)
        .create(true)
        .open(system, path)?;
    file.try_lock()?;
    Ok(file)
}

impl<'a> DiskFile<'a> {
    /// Opens a file for reads and appends, and locks it. Creates the file if it doesn't exist.
    ///
    /// Another gateway may have replaced the file after it was opened, and released the lock. In that case, this fails
    /// as if the file were still locked.
    pub fn open(system: &'a HostRuntime, path: &str) -> io::Result<Self> {
        let file = open_locked(system, path)?;
        let opened = DiskFile {
            system,
            path: joined(path, "")?,
            file,
            is_synced: false,
            is_named_later: true,
            suffix: None,
        };
        if opened.has_name()? {
            Ok(opened)
        } else {
            Err(io::Error::from(ErrorKind::WouldBlock))
        }
    }

    /// Returns whether the path leads to this file.
    fn has_name(&self) -> io::Result<bool> {
        let found = match self.system.metadata(self.path.as_str()) {
            Ok(found) => found,
            Err(error) if error.kind() == ErrorKind::NotFound => return Ok(false),
            Err(error) => return Err(error),
        };
        let own = self.file.metadata()?;
        Ok(found.dev() == own.dev() && found.ino() == own.ino())
    }

    /// Makes the path lead to the next file, whose own path is `next`. With `--sync`, the old file's other name is put
    /// on the disk first.
    fn rename(&self, next: &str, is_synced: bool) -> io::Result<()> {
        if is_synced {
            sync_folder(self.system, self.path.as_str())?;
        }
        self.system.rename(next, self.path.as_str())
    }

    /// Continues with the next file, to which the path leads now.
    fn continue_with(&mut self, file: File, is_synced: bool) {
        self.file = file;
        self.suffix = None;
        self.is_synced = is_synced;
        self.is_named_later = true;
        if is_synced && sync_folder(self.system, self.path.as_str()).is_ok() {
            self.is_named_later = false;
        }
    }

    /// Removes the other name that the file was given for a renewal that failed.
    fn forget(&mut self) -> io::Result<()> {
        let Some(suffix) = self.suffix.take() else {
            return Ok(());
        };
        let name = beside(self.path.as_str(), suffix.as_str())?;
        self.system.remove_file(name.as_str())
    }
}

impl<'a> JournalFile for DiskFile<'a> {
    fn read(&mut self, at: u64, buffer: &mut [u8]) -> io::Result<usize> {
        self.file.seek(SeekFrom::Start(at))?;
        self.file.read(buffer)
    }

    fn write(&mut self, bytes: &[u8]) -> io::Result<usize> {
        self.file.write(bytes)
    }

    /// Fails if the file is shorter than `len`, because the system would extend it with zeros.
    fn cut(&mut self, len: u64) -> io::Result<()> {
        if self.file.metadata()?.len() < len {
            return Err(io::Error::from(ErrorKind::UnexpectedEof));
        }
        self.file.set_len(len)
    }

    fn sync(&mut self) -> io::Result<()> {
        if self.is_named_later {
            sync_folder(self.system, self.path.as_str())?;
            self.is_named_later = false;
        }
        self.is_synced = true;
        self.file.sync_data()
    }

    fn is_there(&mut self, len: u64) -> io::Result<bool> {
        Ok(self.has_name()? && self.file.metadata()?.len() == len)
    }

    /// The new file is next to this one, and has the same permissions. A file that an earlier gateway left there is
    /// emptied.
    fn create_next(&mut self) -> io::Result<Self> {
        let path = beside(self.path.as_str(), "new")?;
        let file = open_locked(self.system, path.as_str())?;
        file.set_len(0)?;
        file.set_permissions(self.file.metadata()?.permissions())?;
        Ok(DiskFile {
            system: self.system,
            path,
            file,
            is_synced: false,
            // Nobody looks for the new file under this name.
            is_named_later: false,
            suffix: None,
        })
    }

    /// Keeps the file to which the path leads, even if somebody has put another file there. If it leads nowhere, since
    /// somebody has removed or renamed the file, there is nothing to keep. If the file has another name already, as after a
    /// crash in a renewal, that one is enough. Fails if the name is taken.
    fn keep(&mut self, suffix: &str) -> io::Result<()> {
        if self.has_name()? && self.file.metadata()?.nlink() > 1 {
            return Ok(());
        }
        let name = beside(self.path.as_str(), suffix)?;
        match self.system.hard_link(self.path.as_str(), name.as_str()) {
            Ok(()) => {
                self.suffix = ArrayString::from(suffix).ok();
                Ok(())
            }
            Err(error) if error.kind() == ErrorKind::NotFound => Ok(()),
            Err(error) => Err(error),
        }
    }

    /// If the folder can't be synced after the path leads to the next file, the path may lead to either file after a
    /// power cut. Both files hold everything that was answered so far, and without a power cut, the path leads to the
    /// next file. So the file was replaced. But until the folder can be synced, each sync of the file fails, so no
    /// answer relies on the path.
    fn replace(&mut self, next: Self) -> io::Result<()> {
        let DiskFile {
            path,
            file,
            is_synced,
            ..
        } = next;
        match self.rename(path.as_str(), is_synced) {
            Ok(()) => {
                self.continue_with(file, is_synced);
                Ok(())
            }
            Err(error) => {
                let _ = self.forget();
                Err(error)
            }
        }
    }
}
