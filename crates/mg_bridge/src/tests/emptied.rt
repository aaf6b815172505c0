//! A test in which another program empties the file of a journal.

use crate::machine::SystemHost;
use mg_host::Journals;
use mg_journal::Opening;
use std::fs;
use std::io::{self, ErrorKind, Read};
use std::test::Fail;

/// Returns the kind of error with which a call failed.
fn kind<T: Drop>(outcome: io::Result<T>) -> Option<ErrorKind> {
    match outcome {
        Ok(_) => None,
        Err(error) => Some(error.kind()),
    }
}

/// Another program empties the file after the file is opened and before it is read. Returns whether a read and then the
/// acceptance fail, and the file stays empty.
fn is_never_extended<H: Journals>(host: &mut H, rt: &HostRuntime, path: &str) -> io::Result<bool> {
    fs::write(rt, path, "one\ntw")?;
    let mut opening = Opening::new(host.open_journal(path)?)?;
    fs::write(rt, path, "")?;
    let mut buffer = [0; 8];
    let ended = Some(ErrorKind::UnexpectedEof);
    let has_ended = kind(opening.read(&mut buffer)) == ended && kind(opening.accept()) == ended;
    let is_empty = fs::metadata(rt, path)?.len() == 0;
    fs::remove_file(rt, path)?;
    Ok(has_ended && is_empty)
}

#[test]
fn extends_no_file_on_disk(rt: HostRuntime) -> Result<(), Fail> {
    let mut host = SystemHost::new(&rt, &rt);
    assert!(rt; is_never_extended(&mut host, &rt, "mg_journal.txt")?);
    Ok(())
}
