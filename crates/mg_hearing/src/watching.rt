ghost use Rattle.std.specs.Prelude.{◌≡◌, ◌⊎◌, ℕ, [], ◌∷◌, IfErr, IfOk, IsSome, List, OnOk, Option, is_some, map};
ghost use Rattle.std.specs.Prelude.{if◌then◌else◌};
ghost use Rattle.mg_options.specs.Status.{UnlessFault};
ghost use Rattle.mg_joined.specs.aids.Joining.{all_known};
ghost use Rattle.mg_hearing.specs.Absence.{Receives};
ghost use Rattle.mg_hearing.specs.Files.{ReadsAll};
ghost use Rattle.mg_hearing.specs.Page.{script_name};
ghost use Rattle.mg_hearing.specs.Watched.{IsAnswered, IsAnsweredFrom, IsSet, status_for};
ghost use Rattle.mg_hearing.specs.aids.Absences.{all_absences};
ghost use Rattle.mg_hearing.specs.aids.Opening.{AreJoined};

use crate::absence::warn_of_missing;
use crate::alarm::Alarm;
use crate::beginning::{Beginning, begin};
use crate::faults::{INPUT, status_or_report};
use crate::script_fault::ScriptFault;
use crate::sources::{Sources, open_joined};
use crate::starting::start_core;
use crate::styling::{report_name_fault, style_of};
use crate::words::script_name;
use mg_arguments::WatchRequest;
use mg_heard::{Missing, Violation, rules_of, write_violation};
use mg_host::Texts;
use mg_joined::{Joined, TextsKey};
use mg_options::Status;
use std::alloc::Global;
use std::collections::VecDeque;
use std::fs::Files;
use std::io::{BufRead, Read, Write};
use std::marker::Brand;

/// Returns the exit status of a watch. If there is no violation, warns on `errors` of the missing terminations.
fn end_watch<E: Write>(
    alloc: Global,
    request: &WatchRequest,
    found: &Option<Violation>,
    missing: &[Missing],
    errors: &mut E,
) -> Status
    ensures value { UnlessFault ((result ≡ status_for found.now) × Receives E.contents errors.old errors.new
        (if is_some found.now then [] else all_absences (script_name request.now.file request.now.later) request.now.rules missing.now))
        result }
{
    match found {
        Some(_) => Status::RuleBroken,
        None => {
            let Ok(name) = script_name(alloc, &request.file, &request.later) else {
                return Status::NoMemory;
            };
            let rules = request.rules.as_slice();
            warn_of_missing(alloc, name.as_slice(), rules, missing, Status::Done, errors)
        }
    }
}

/// Prints the first violation in the script of a request. If there is no violation, reports to `errors` each talker and
/// listener of the rules that the gateway never had.
fn watch_script<R: Read, W: Write, E: Write>(
    alloc: Global,
    request: &WatchRequest,
    alarm: Alarm,
    reader: &mut R,
    output: &mut W,
    errors: &mut E,
) -> Result<Status, ScriptFault>
    ensures value { IfOk result (λ status. UnlessFault (IsAnswered request.now alarm (R.remaining reader.old)
        (W.contents output.old) (W.contents output.new) (Receives E.contents errors.old errors.new) status) status) }
{
    let Beginning {
        front,
        start,
        lines,
    } = begin(alloc, reader)?;
    let mut script = front.as_slice().chain(reader);
    let core = match start_core(alloc, &start) {
        Ok(core) => core,
        Err(fault) => return Err(fault.behind(lines)),
    };
    let Alarm { style, rules } = alarm;
    match write_violation(alloc, core, &mut script, style, rules.as_slice(), output) {
        Ok((found, missing)) => Ok(end_watch(alloc, request, &found, missing.as_slice(), errors)),
        Err(fault) => Err(ScriptFault::Heard(fault).behind(lines)),
    }
}

/// Returns the alarm that a request sets. If the alarm can't be set, reports why to `errors`, and returns the exit
/// status.
fn alarm_of<F: Files, E: Write>(
    files: &F,
    alloc: Global,
    request: &WatchRequest,
    errors: &mut E,
) -> Result<Alarm, Status>
    ensures set { IfOk result (IsSet request.now) }
    ensures silent { OnOk result (errors.new ≡ errors.old) }
    ensures ends { IfErr result (λ status.
        (status ≡ Status.Failed) ⊎ (status ≡ Status.NoMemory) ⊎ (status ≡ Status.BadJournal)) }
{
    let style = match style_of(files, alloc, &request.printing, errors) {
        Ok(style) => style,
        Err(status) => return Err(status),
    };
    match rules_of(alloc, request.rules.as_slice(), &style.names) {
        Ok(rules) => Ok(Alarm { style, rules }),
        Err(fault) => Err(report_name_fault(&request.printing, fault, errors)),
    }
}

/// Prints the first violation in the script of several files. Returns the exit status. A fault is reported to `errors`.
fn watch_files<H: Texts, W: Write, E: Write>(
    host: &mut H,
    alloc: Global,
    request: &WatchRequest,
    alarm: Alarm,
    sources: Sources<'_>,
    output: &mut W,
    errors: &mut E,
) -> Status
    ensures value { UnlessFault ((script : Option (List ℕ))
        × ReadsAll (sources.entry.file.now ∷ sources.entry.later.now) (H.calls host.old) (H.calls host.new) script
        × IsAnswered request.now alarm script
        (W.contents output.old) (W.contents output.new) (Receives E.contents errors.old errors.new) result) result }
{
    let opened = match open_joined(host, alloc, sources, errors) {
        Ok(opened) => opened,
        Err(status) => return status,
    };
    watch_joined::<_, Brand, _, _>(alloc, request, alarm, opened, sources, output, errors)
}

/// Prints the first violation in the script of open files. Returns the exit status. A fault is reported to `errors`.
fn watch_joined<B: BufRead + Drop, K: TextsKey, W: Write, E: Write>(
    alloc: Global,
    request: &WatchRequest,
    alarm: Alarm,
    opened: VecDeque<B>,
    sources: Sources<'_>,
    output: &mut W,
    errors: &mut E,
) -> Status
    requires texts { K.texts ≡ all_known (map B.remaining opened.items) }
    ensures value { UnlessFault ((script : Option (List ℕ)) × AreJoined K.texts script
        × IsAnswered request.now alarm script
        (W.contents output.old) (W.contents output.new) (Receives E.contents errors.old errors.new) result) result }
{
    let mut joined = match Joined::<B, K>::new(alloc, opened) {
        Ok(joined) => joined,
        Err(fault) => return sources.report_unopened(&fault, errors),
    };
    match watch_script(alloc, request, alarm, &mut joined, output, errors) {
        Ok(status) => sources.end(&mut joined, status, errors),
        Err(fault) => sources.report(&joined, fault, errors),
    }
}

/// Prints the first violation of the rules in `request` as soon as it arrives. Returns the exit status. A fault is
/// reported to `errors`. At the end of a script that breaks no rule, so is each talker and listener of the rules that
/// the gateway never had.
pub fn watch<H: Texts, F: Files, R: Read, W: Write, E: Write>(
    host: &mut H,
    files: &F,
    alloc: Global,
    request: &WatchRequest,
    input: &mut R,
    output: &mut W,
    errors: &mut E,
) -> Status
    ensures value { UnlessFault (IsAnsweredFrom request.now (H.calls host.old) (H.calls host.new) (R.remaining input.old) (W.contents output.old)
        (W.contents output.new) (Receives E.contents errors.old errors.new) result) result }
    ensures unread { IsSome request.now.file → input.new ≡ input.old }
{
    let alarm = match alarm_of(files, alloc, request, errors) {
        Ok(alarm) => alarm,
        Err(status) => return status,
    };
    let Some(path) = &request.file else {
        let answer = watch_script(alloc, request, alarm, input, output, errors);
        return status_or_report(INPUT, answer, errors);
    };
    if !request.later.is_empty() {
        let sources = Sources {
            file: path,
            later: &request.later,
        };
        return watch_files(host, alloc, request, alarm, sources, output, errors);
    }
    let name = path.as_str();
    match host.open_text(name) {
        Ok(mut file) => {
            let answer = watch_script(alloc, request, alarm, &mut file, output, errors);
            status_or_report(name, answer, errors)
        }
        Err(error) => {
            let _ = writeln!(errors, "{name}: cannot be opened: {error}");
            Status::BadJournal
        }
    }
}
