//! Reports of terminations that the gateway of a script never had.

ghost use Rattle.std.specs.Prelude.{◌≡◌, ◌++◌, IfErr, IfOk, OnOk};
ghost use Rattle.mg_options.specs.Status.{UnlessFault};
ghost use Rattle.mg_hearing.specs.Absence.{Receives, absence_line, absences};
ghost use Rattle.mg_hearing.specs.Page.{script_name};
ghost use Rattle.mg_hearing.specs.aids.Absences.{all_absences};

use crate::words::{party_word, script_name};
use mg_arguments::HeardRequest;
use mg_heard::{Asked, AskedRule, Missing};
use mg_options::Status;
use std::alloc::{AllocError, Global};
use std::io::Write;

/// Appends the line that reports a missing termination, or nothing if it isn't missing.
fn push_line(
    alloc: Global,
    name: &[u8],
    asked: &Option<Asked>,
    is_missing: bool,
    text: &mut Vec<u8>,
) -> Result<(), AllocError>
    ensures value { OnOk result (text.new.items ≡ text.old.items ++ absence_line name.now asked.now is_missing) }
{
    if is_missing {
        let word = party_word(alloc, asked)?;
        text.extend_from_slice(name)?;
        text.extend_from_slice(b": ")?;
        text.extend_from_slice(word.as_slice())?;
        text.extend_from_slice(b" was never there\n")?;
    }
    Ok(())
}

/// Appends the lines for the missing terminations of all rules.
fn push_all(
    alloc: Global,
    name: &[u8],
    rules: &[AskedRule],
    missing: &[Missing],
    text: &mut Vec<u8>,
) -> Result<(), AllocError>
    ensures value { OnOk result (text.new.items ≡ text.old.items ++ all_absences name.now rules.now missing.now) }
{
    for place in 0..rules.len().min(missing.len()) {
        let rule = &rules[place];
        let absent = &missing[place];
        push_line(alloc, name, &rule.talker, absent.talker, text)?;
        push_line(alloc, name, &rule.listener, absent.listener, text)?;
    }
    Ok(())
}

/// Writes a report unless it is empty. If the write fails, returns the exit status.
fn write_lines<E: Write>(text: &[u8], errors: &mut E) -> Result<(), Status>
    ensures value { OnOk result (Receives E.contents errors.old errors.new text.now) }
    ensures ends { IfErr result (λ status. status ≡ Status.Failed) }
{
    if text.is_empty() {
        return Ok(());
    }
    match errors.write_all(text) {
        Ok(()) => Ok(()),
        Err(_) => Err(Status::Failed),
    }
}

/// Returns a line for the talker of a question if the talker is missing, and a line for the listener if the listener is
/// missing.
fn lines_of(alloc: Global, request: &HeardRequest, missing: Missing) -> Result<Vec<u8>, AllocError>
    ensures value { IfOk result (λ text. text.items ≡
        absences (script_name request.now.file request.now.later) request.now.query.talker request.now.query.listener missing) }
{
    let name = script_name(alloc, &request.file, &request.later)?;
    let name = name.as_slice();
    let query = &request.query;
    let mut text = Vec::new(alloc);
    push_line(alloc, name, &query.talker, missing.talker, &mut text)?;
    push_line(alloc, name, &query.listener, missing.listener, &mut text)?;
    Ok(text)
}

/// Returns a line for each missing talker and for each missing listener of the rules.
fn lines_of_rules(
    alloc: Global,
    name: &[u8],
    rules: &[AskedRule],
    missing: &[Missing],
) -> Result<Vec<u8>, AllocError>
    ensures value { IfOk result (λ text. text.items ≡ all_absences name.now rules.now missing.now) }
{
    let mut text = Vec::new(alloc);
    push_all(alloc, name, rules, missing, &mut text)?;
    Ok(text)
}

/// Reports to `errors` whether the talker and the listener of a request are missing. Returns the exit status: the given
/// status, unless the report fails.
pub(crate) fn report_missing<E: Write>(
    alloc: Global,
    request: &HeardRequest,
    missing: Missing,
    status: Status,
    errors: &mut E,
) -> Status
    ensures value { UnlessFault ((result ≡ status) × Receives E.contents errors.old errors.new
        (absences (script_name request.now.file request.now.later) request.now.query.talker request.now.query.listener missing)) result }
{
    let Ok(text) = lines_of(alloc, request, missing) else {
        return Status::NoMemory;
    };
    match write_lines(text.as_slice(), errors) {
        Ok(()) => status,
        Err(fault) => fault,
    }
}

/// Warns on `errors` of each missing talker and listener of the rules. Returns the exit status: the given status,
/// unless the report fails.
pub(crate) fn warn_of_missing<E: Write>(
    alloc: Global,
    name: &[u8],
    rules: &[AskedRule],
    missing: &[Missing],
    status: Status,
    errors: &mut E,
) -> Status
    ensures value { UnlessFault ((result ≡ status) × Receives E.contents errors.old errors.new
        (all_absences name.now rules.now missing.now)) result }
{
    let Ok(text) = lines_of_rules(alloc, name, rules, missing) else {
        return Status::NoMemory;
    };
    match write_lines(text.as_slice(), errors) {
        Ok(()) => status,
        Err(fault) => fault,
    }
}
