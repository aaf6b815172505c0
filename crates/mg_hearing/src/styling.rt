ghost use Rattle.std.specs.Prelude.{◌≡◌, ◌⊎◌, [], IfErr, IfOk, None, OnOk};
ghost use Rattle.mg_hearing.specs.Heard.{IsStyle};

use crate::names_file::read_names;
use mg_arguments::{Printing, ZoneName};
use mg_dates::Zone;
use mg_heard::{NameFault, Names, Style};
use mg_options::Status;
use mg_service::FilePath;
use std::alloc::Global;
use std::fs::{Files, OpenOptions};
use std::io::Write;

/// Returns the time zone with this name, or UTC if `name` is `None`. If no zone has this name, reports this to
/// `errors`, and returns the exit status.
fn find_zone<F: Files, E: Write>(
    files: &F,
    alloc: Global,
    name: &Option<ZoneName>,
    errors: &mut E,
) -> Result<Zone, Status>
    ensures silent { OnOk result (errors.new ≡ errors.old) }
    ensures ends { IfErr result (λ status. status ≡ Status.BadJournal) }
{
    let Some(name) = name else {
        return Ok(Zone::Utc);
    };
    match Zone::find(files, alloc, name.as_str()) {
        Some(zone) => Ok(zone),
        None => {
            let _ = writeln!(errors, "{}: no such time zone", name.as_str());
            Err(Status::BadJournal)
        }
    }
}

/// Reads the file of names, or returns no names if `path` is `None`. If the file can't be used, reports why to
/// `errors`, and returns the exit status.
fn find_names<F: Files, E: Write>(
    files: &F,
    alloc: Global,
    path: &Option<FilePath>,
    errors: &mut E,
) -> Result<Names, Status>
    ensures none { path.now ≡ None → IfOk result (λ names. names ≡ []) }
    ensures silent { OnOk result (errors.new ≡ errors.old) }
    ensures ends { IfErr result (λ status.
        (status ≡ Status.Failed) ⊎ (status ≡ Status.NoMemory) ⊎ (status ≡ Status.BadJournal)) }
{
    let Some(path) = path else {
        return Ok(Names::none(alloc));
    };
    let name = path.as_str();
    let mut file = match OpenOptions::new().read(true).open(files, name) {
        Ok(file) => file,
        Err(error) => {
            let _ = writeln!(errors, "{name}: cannot be opened: {error}");
            return Err(Status::BadJournal);
        }
    };
    match read_names(alloc, &mut file) {
        Ok(names) => Ok(names),
        Err(fault) => {
            let _ = writeln!(errors, "{name}: {fault}");
            Err(fault.status())
        }
    }
}

/// Returns the style of an answer. If its time zone or its names can't be found, reports why to `errors`, and returns
/// the exit status.
pub(crate) fn style_of<F: Files, E: Write>(
    files: &F,
    alloc: Global,
    printing: &Printing,
    errors: &mut E,
) -> Result<Style, Status>
    ensures style { IfOk result (IsStyle printing.now) }
    ensures silent { OnOk result (errors.new ≡ errors.old) }
    ensures ends { IfErr result (λ status.
        (status ≡ Status.Failed) ⊎ (status ≡ Status.NoMemory) ⊎ (status ≡ Status.BadJournal)) }
{
    let zone = match find_zone(files, alloc, &printing.zone, errors) {
        Ok(zone) => zone,
        Err(status) => return Err(status),
    };
    match find_names(files, alloc, &printing.names, errors) {
        Ok(names) => Ok(Style {
            format: printing.format,
            zone,
            names,
        }),
        Err(status) => Err(status),
    }
}

/// Reports why a question can't be asked or a rule can't be checked. Returns the exit status.
pub(crate) fn report_name_fault<E: Write>(
    printing: &Printing,
    fault: NameFault,
    errors: &mut E,
) -> Status
    ensures ends { (result ≡ Status.NoMemory) ⊎ (result ≡ Status.BadJournal) }
{
    let file = match &printing.names {
        Some(path) => path.as_str(),
        None => "--names",
    };
    match fault {
        NameFault::Unknown(name) => {
            if let Ok(text) = str::from_utf8(name.as_slice()) {
                let _ = writeln!(errors, "{file}: no line has the name '{text}'");
            }
            Status::BadJournal
        }
        NameFault::NoMemory => {
            let _ = writeln!(errors, "out of memory");
            Status::NoMemory
        }
    }
}
