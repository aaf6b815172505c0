ghost use Rattle.std.specs.Prelude.{◌≡◌, ◌⊎◌, ◌∷◌, ℕ, IfErr, IfOk, IsSome, List, OnOk, Option, false, map};
ghost use Rattle.mg_core.specs.Follow.{IsFollowed};
ghost use Rattle.mg_core.specs.Note.{events_in};
ghost use Rattle.mg_core.specs.World.{World};
ghost use Rattle.mg_core.specs.declared.state.CoreState.{CoreState};
ghost use Rattle.mg_heard.specs.Came.{unless_missing};
ghost use Rattle.mg_heard.specs.Told.{TellsAll};
ghost use Rattle.mg_heard.specs.aids.Calling.{AreMissing};
ghost use Rattle.mg_options.specs.Status.{UnlessFault};
ghost use Rattle.mg_hearing.specs.Absence.{Receives};
ghost use Rattle.mg_joined.specs.aids.Joining.{all_known};
ghost use Rattle.mg_hearing.specs.Files.{ReadsAll};
ghost use Rattle.mg_hearing.specs.Heard.{IsAsked, IsHeard, IsHeardFrom, status_for};
ghost use Rattle.mg_hearing.specs.aids.Beginning.{IsBeginningOf};
ghost use Rattle.mg_hearing.specs.aids.Opening.{AreJoined};
ghost use Rattle.mg_hearing.specs.aids.Forms.{PrintsLines, is_page};

use crate::absence::report_missing;
use crate::asking::Asking;
use crate::beginning::{Beginning, begin};
use crate::faults::{INPUT, status_or_report};
use crate::paging::hear_page;
use crate::question::Question;
use crate::script_fault::ScriptFault;
use crate::sources::{Sources, open_joined};
use crate::start::Start;
use crate::starting::start_core;
use crate::styling::{report_name_fault, style_of};
use mg_arguments::HeardRequest;
use mg_heard::{Format, Missing, Verdict, write_answer, write_report};
use mg_host::Texts;
use mg_joined::{Joined, TextsKey};
use mg_options::Status;
use std::alloc::Global;
use std::collections::VecDeque;
use std::fs::Files;
use std::io::{BufRead, Read, Write};
use std::marker::Brand;

/// Returns the exit status that answers a question about a given time.
fn status_for(verdict: &Verdict) -> Status
    ensures value { result ≡ status_for verdict.now }
{
    match verdict {
        Verdict::CouldHear(_) => Status::Done,
        Verdict::CouldNotHear => Status::CouldNotHear,
        Verdict::Unknown => Status::Unknown,
    }
}

/// Returns the exit status of a page or a report.
pub(crate) fn status_if(missing: Missing) -> Status
    ensures value { result ≡ unless_missing Status.Unknown missing Status.Done }
{
    if missing.is_any() {
        Status::Unknown
    } else {
        Status::Done
    }
}

/// Prints the answer to a question about a script on a gateway that begins like this. Returns the exit status, and
/// whether the question's talker and listener are missing.
fn print_heard<R: Read, W: Write>(
    alloc: Global,
    start: &Start,
    question: Question,
    reader: &mut R,
    output: &mut W,
) -> Result<(Status, Missing), ScriptFault>
    ensures value { IfOk result (λ printed. (base : World) × IsBeginningOf start.now base × (state : CoreState) ×
        IsFollowed base (R.remaining reader.old) (R.remaining reader.new) state
        (λ notes. AreMissing base (events_in notes) question.query.talker question.query.listener printed.1
        × TellsAll base notes
        (PrintsLines question question.at (W.contents output.old) (W.contents output.new) printed.1 printed.0))) }
{
    let Question { style, query, at } = question;
    let core = start_core(alloc, start)?;
    match at {
        Some(time) => {
            let (verdict, missing) = write_answer(alloc, core, reader, style, query, time, output)?;
            Ok((status_for(&verdict), missing))
        }
        None => {
            let (_, _, missing) = write_report(alloc, core, reader, style, query, output)?;
            Ok((status_if(missing), missing))
        }
    }
}

/// Prints the answer to a question about the script that `reader` supplies, in lines.
fn hear_lines<R: Read, W: Write, E: Write>(
    alloc: Global,
    asking: Asking<'_>,
    reader: &mut R,
    output: &mut W,
    errors: &mut E,
) -> Result<Status, ScriptFault>
    requires lines { is_page asking.question.style.format ≡ false }
    ensures value { IfOk result (λ status. UnlessFault
        (IsHeard asking.entry.request.now asking.entry.question (R.remaining reader.old)
        (W.contents output.old) (W.contents output.new) (Receives E.contents errors.old errors.new) status) status) }
{
    let Beginning {
        front,
        start,
        lines,
    } = begin(alloc, reader)?;
    let mut script = front.as_slice().chain(reader);
    match print_heard(alloc, &start, asking.question, &mut script, output) {
        Ok((status, missing)) => {
            Ok(report_missing(alloc, asking.request, missing, status, errors))
        }
        Err(fault) => Err(fault.behind(lines)),
    }
}

/// Returns whether a format is that of a page.
fn is_page(format: Format) -> bool
    ensures value { result ≡ is_page format }
{
    match format {
        Format::Page => true,
        Format::Text => false,
        Format::Csv => false,
        Format::Json => false,
    }
}

/// Prints the answer to a question about the script that `reader` supplies.
fn hear_script<F: Files, R: Read, W: Write, E: Write>(
    files: &F,
    alloc: Global,
    asking: Asking<'_>,
    reader: &mut R,
    output: &mut W,
    errors: &mut E,
) -> Result<Status, ScriptFault>
    ensures value { IfOk result (λ status. UnlessFault
        (IsHeard asking.entry.request.now asking.entry.question (R.remaining reader.old)
        (W.contents output.old) (W.contents output.new) (Receives E.contents errors.old errors.new) status) status) }
{
    if is_page(asking.question.style.format) {
        hear_page(files, alloc, asking, reader, output, errors)
    } else {
        hear_lines(alloc, asking, reader, output, errors)
    }
}

/// Returns the question that a request asks. If the question can't be asked, reports why to `errors`, and returns the
/// exit status.
pub(crate) fn question_of<F: Files, E: Write>(
    files: &F,
    alloc: Global,
    request: &HeardRequest,
    errors: &mut E,
) -> Result<Question, Status>
    ensures asked { IfOk result (IsAsked request.now) }
    ensures silent { OnOk result (errors.new ≡ errors.old) }
    ensures ends { IfErr result (λ status.
        (status ≡ Status.Failed) ⊎ (status ≡ Status.NoMemory) ⊎ (status ≡ Status.BadJournal)) }
{
    let style = match style_of(files, alloc, &request.printing, errors) {
        Ok(style) => style,
        Err(status) => return Err(status),
    };
    match request.query.query(alloc, &style.names) {
        Ok(query) => Ok(Question {
            style,
            query,
            at: request.at,
        }),
        Err(fault) => Err(report_name_fault(&request.printing, fault, errors)),
    }
}

/// Prints the answer to a question about the script of several files. Returns the exit status. A fault is reported to
/// `errors`.
fn hear_files<H: Texts, F: Files, W: Write, E: Write>(
    host: &mut H,
    files: &F,
    alloc: Global,
    asking: Asking<'_>,
    sources: Sources<'_>,
    output: &mut W,
    errors: &mut E,
) -> Status
    ensures value { UnlessFault ((script : Option (List ℕ))
        × ReadsAll (sources.entry.file.now ∷ sources.entry.later.now) (H.calls host.old) (H.calls host.new) script
        × IsHeard asking.entry.request.now asking.entry.question script
        (W.contents output.old) (W.contents output.new) (Receives E.contents errors.old errors.new) result) result }
{
    let opened = match open_joined(host, alloc, sources, errors) {
        Ok(opened) => opened,
        Err(status) => return status,
    };
    hear_joined::<_, _, Brand, _, _>(files, alloc, asking, opened, sources, output, errors)
}

/// Prints the answer to a question about the script of open files. Returns the exit status. A fault is reported to
/// `errors`.
fn hear_joined<B: BufRead + Drop, F: Files, K: TextsKey, W: Write, E: Write>(
    files: &F,
    alloc: Global,
    asking: Asking<'_>,
    opened: VecDeque<B>,
    sources: Sources<'_>,
    output: &mut W,
    errors: &mut E,
) -> Status
    requires texts { K.texts ≡ all_known (map B.remaining opened.items) }
    ensures value { UnlessFault ((script : Option (List ℕ)) × AreJoined K.texts script
        × IsHeard asking.entry.request.now asking.entry.question script
        (W.contents output.old) (W.contents output.new) (Receives E.contents errors.old errors.new) result) result }
{
    let mut joined = match Joined::<B, K>::new(alloc, opened) {
        Ok(joined) => joined,
        Err(fault) => return sources.report_unopened(&fault, errors),
    };
    match hear_script(files, alloc, asking, &mut joined, output, errors) {
        Ok(status) => sources.end(&mut joined, status, errors),
        Err(fault) => sources.report(&joined, fault, errors),
    }
}

/// Prints who could hear whom while a script ran, or answers a question about a given time. Returns the exit status. A
/// fault is reported to `errors`, and so is a talker or a listener in the question that the gateway never had.
pub fn heard<H: Texts, F: Files, R: Read, W: Write, E: Write>(
    host: &mut H,
    files: &F,
    alloc: Global,
    request: &HeardRequest,
    input: &mut R,
    output: &mut W,
    errors: &mut E,
) -> Status
    ensures value { UnlessFault (IsHeardFrom request.now (H.calls host.old) (H.calls host.new) (R.remaining input.old) (W.contents output.old)
        (W.contents output.new) (Receives E.contents errors.old errors.new) result) result }
    ensures unread { IsSome request.now.file → input.new ≡ input.old }
{
    let question = match question_of(files, alloc, request, errors) {
        Ok(question) => question,
        Err(status) => return status,
    };
    let asking = Asking { request, question };
    let Some(path) = &request.file else {
        let answer = hear_script(files, alloc, asking, input, output, errors);
        return status_or_report(INPUT, answer, errors);
    };
    if !request.later.is_empty() {
        let sources = Sources {
            file: path,
            later: &request.later,
        };
        return hear_files(host, files, alloc, asking, sources, output, errors);
    }
    let name = path.as_str();
    match host.open_text(name) {
        Ok(mut file) => {
            let answer = hear_script(files, alloc, asking, &mut file, output, errors);
            status_or_report(name, answer, errors)
        }
        Err(error) => {
            let _ = writeln!(errors, "{name}: cannot be opened: {error}");
            Status::BadJournal
        }
    }
}
