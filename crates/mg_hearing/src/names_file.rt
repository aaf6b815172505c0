use crate::names_fault::NamesFault;
use csv::{ByteRecord, Reader, ReaderBuilder};
use mg_heard::{Name, Named, Names, PartyName};
use std::alloc::Global;
use std::io::Read;

/// The maximum number of lines.
const MAX_LINES: u32 = 1024;

/// Returns the key and the name in a line, or `None` if the line is anything else.
fn named_in(line: &ByteRecord) -> Option<Named> {
    if line.len() != 2 {
        return None;
    }
    let (key, name) = (line.get(0)?, line.get(1)?);
    if str::from_utf8(name).is_err() {
        return None;
    }
    Some(Named {
        key: PartyName::of(key)?,
        name: Name::of(name)?,
    })
}

/// Reads the next line. Returns `None` at the end of the file.
fn read_line<R: Read>(
    reader: &mut Reader<R>,
    line: &mut ByteRecord,
) -> Result<Option<Named>, NamesFault> {
    let number = reader.position().line();
    match reader.read_byte_record(line) {
        Ok(true) => {}
        Ok(false) => return Ok(None),
        Err(error) if error.is_io_error() => return Err(NamesFault::Read),
        Err(_) => return Err(NamesFault::NoMemory),
    }
    // The CSV reader skips an empty line, and takes a line feed in quotes as part of a field. Both are errors here.
    if reader.position().line() > number.saturating_add(1) {
        return Err(NamesFault::BadLine(number));
    }
    match named_in(line) {
        Some(named) => Ok(Some(named)),
        None => Err(NamesFault::BadLine(number)),
    }
}

/// Reads a file of names (CSV, RFC 4180): lines with a key and a name.
pub(crate) fn read_names<R: Read>(alloc: Global, file: &mut R) -> Result<Names, NamesFault> {
    let mut reader = ReaderBuilder::new()
        .has_headers(false)
        .flexible(true)
        .from_reader(alloc, file);
    let mut line = ByteRecord::new(alloc);
    let mut names = Names::none(alloc);
    for _ in 0..MAX_LINES {
        let Some(named) = read_line(&mut reader, &mut line)? else {
            return Ok(names);
        };
        if names.push(named).is_err() {
            return Err(NamesFault::NoMemory);
        }
    }
    match read_line(&mut reader, &mut line)? {
        Some(_) => Err(NamesFault::TooMany),
        None => Ok(names),
    }
}
