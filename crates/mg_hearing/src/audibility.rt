ghost use Rattle.std.specs.List.{list_any};
ghost use Rattle.std.specs.Prelude.{◌≡◌, ◌∷◌, true, IfOk, IsSome, Option, List, ℕ, map};
ghost use Rattle.mg_audible.specs.Told.{TellsAudible};
ghost use Rattle.mg_core.specs.Counting.{is_media};
ghost use Rattle.mg_core.specs.Follow.{IsFollowed};
ghost use Rattle.mg_core.specs.Note.{events_in};
ghost use Rattle.mg_core.specs.World.{World};
ghost use Rattle.mg_core.specs.declared.state.CoreState.{CoreState};
ghost use Rattle.mg_heard.specs.Reported.{WritesReport};
ghost use Rattle.mg_options.specs.Status.{UnlessFault};
ghost use Rattle.mg_joined.specs.aids.Joining.{all_known};
ghost use Rattle.mg_hearing.specs.Audible.{IsAudible, IsAudibleFrom};
ghost use Rattle.mg_hearing.specs.Files.{ReadsAll};
ghost use Rattle.mg_hearing.specs.aids.Beginning.{IsBeginningOf};
ghost use Rattle.mg_hearing.specs.aids.Opening.{AreJoined};

use crate::answering::question_of;
use crate::beginning::{Beginning, begin};
use crate::faults::{INPUT, status_or_report};
use crate::question::Question;
use crate::script_fault::ScriptFault;
use crate::sources::{Sources, open_joined};
use crate::start::Start;
use crate::starting::start_gateways;
use crate::talker_question::TalkerQuestion;
use mg_arguments::AudibleRequest;
use mg_audible::{TalkerQuery, write_audible};
use mg_host::Texts;
use mg_joined::{Joined, TextsKey};
use mg_options::Status;
use std::alloc::Global;
use std::collections::VecDeque;
use std::fs::Files;
use std::io::{BufRead, Read, Write};
use std::marker::Brand;

/// Returns the exit status for success. If a script has no RTP datagrams, reports this to `errors`.
fn done<E: Write>(name: &str, has_rtp: bool, errors: &mut E) -> Status
    ensures status { result ≡ Status.Done }
    ensures silent { has_rtp ≡ true → errors.new ≡ errors.old }
{
    if !has_rtp {
        let _ = writeln!(
            errors,
            "{name}: no RTP datagrams, so nothing is audible; a journal has none, a recording does"
        );
    }
    Status::Done
}

/// Prints when the talker with this number was audible, according to the script that `reader` supplies, which goes on
/// from `start`. Returns whether the script has any RTP datagrams.
fn print_audible<R: Read, W: Write>(
    alloc: Global,
    start: &Start,
    asked: TalkerQuestion,
    reader: &mut R,
    output: &mut W,
) -> Result<bool, ScriptFault>
    ensures value { IfOk result (λ has_rtp. (base : World) × IsBeginningOf start.now base × (state : CoreState) ×
        IsFollowed base (R.remaining reader.old) (R.remaining reader.new) state
        (λ notes. TellsAudible base asked.talker notes
        (WritesReport asked.question.style asked.question.query (W.contents output.old) (W.contents output.new))
        × (has_rtp ≡ list_any is_media (events_in notes)))) }
{
    let TalkerQuestion { talker, question } = asked;
    let Question { style, query, .. } = question;
    let wanted = TalkerQuery { talker, query };
    let gateways = start_gateways(alloc, start)?;
    let has_rtp = write_audible(alloc, gateways, reader, style, wanted, output)?;
    Ok(has_rtp)
}

/// Prints when the talker with this number was audible, according to the script with this name.
fn audible_script<R: Read, W: Write, E: Write>(
    alloc: Global,
    name: &str,
    asked: TalkerQuestion,
    reader: &mut R,
    output: &mut W,
    errors: &mut E,
) -> Result<Status, ScriptFault>
    ensures value { IfOk result (λ status. (status ≡ Status.Done) ×
        IsAudible asked.talker asked.question (R.remaining reader.old) (W.contents output.old)
        (W.contents output.new) (errors.new ≡ errors.old)) }
{
    let Beginning {
        front,
        start,
        lines,
    } = begin(alloc, reader)?;
    let mut script = front.as_slice().chain(reader);
    match print_audible(alloc, &start, asked, &mut script, output) {
        Ok(has_rtp) => Ok(done(name, has_rtp, errors)),
        Err(fault) => Err(fault.behind(lines)),
    }
}

/// Prints when a talker was audible, according to the script of several files. Returns the exit status. A fault is
/// reported to `errors`.
fn audible_files<H: Texts, W: Write, E: Write>(
    host: &mut H,
    alloc: Global,
    asked: TalkerQuestion,
    sources: Sources<'_>,
    output: &mut W,
    errors: &mut E,
) -> Status
    ensures value { UnlessFault ((script : Option (List ℕ))
        × ReadsAll (sources.entry.file.now ∷ sources.entry.later.now) (H.calls host.old) (H.calls host.new) script
        × ((result ≡ Status.Done) × IsAudible asked.talker asked.question script
        (W.contents output.old) (W.contents output.new) (errors.new ≡ errors.old))) result }
{
    let opened = match open_joined(host, alloc, sources, errors) {
        Ok(opened) => opened,
        Err(status) => return status,
    };
    audible_joined::<_, Brand, _, _>(alloc, asked, opened, sources, output, errors)
}

/// Prints when a talker was audible, according to the script of open files. Returns the exit status. A fault is reported
/// to `errors`.
fn audible_joined<B: BufRead + Drop, K: TextsKey, W: Write, E: Write>(
    alloc: Global,
    asked: TalkerQuestion,
    opened: VecDeque<B>,
    sources: Sources<'_>,
    output: &mut W,
    errors: &mut E,
) -> Status
    requires texts { K.texts ≡ all_known (map B.remaining opened.items) }
    ensures value { UnlessFault ((script : Option (List ℕ)) × AreJoined K.texts script
        × ((result ≡ Status.Done) × IsAudible asked.talker asked.question script
        (W.contents output.old) (W.contents output.new) (errors.new ≡ errors.old))) result }
{
    let mut joined = match Joined::<B, K>::new(alloc, opened) {
        Ok(joined) => joined,
        Err(fault) => return sources.report_unopened(&fault, errors),
    };
    let name = sources.file.as_str();
    match audible_script(alloc, name, asked, &mut joined, output, errors) {
        Ok(status) => sources.end(&mut joined, status, errors),
        Err(fault) => sources.report(&joined, fault, errors),
    }
}

/// Prints when a talker was audible while a script ran. Returns the exit status. A fault is reported to `errors`, and
/// so is a script without RTP datagrams, in which nothing can be audible.
pub fn audible<H: Texts, F: Files, R: Read, W: Write, E: Write>(
    host: &mut H,
    files: &F,
    alloc: Global,
    request: &AudibleRequest,
    input: &mut R,
    output: &mut W,
    errors: &mut E,
) -> Status
    ensures value { UnlessFault ((result ≡ Status.Done) × IsAudibleFrom request.now (H.calls host.old) (H.calls host.new) (R.remaining input.old) (W.contents output.old)
        (W.contents output.new) (errors.new ≡ errors.old)) result }
    ensures unread { IsSome request.now.heard.file → input.new ≡ input.old }
{
    let question = match question_of(files, alloc, &request.heard, errors) {
        Ok(question) => question,
        Err(status) => return status,
    };
    let asked = TalkerQuestion {
        talker: request.talker,
        question,
    };
    let Some(path) = &request.heard.file else {
        let answer = audible_script(alloc, INPUT, asked, input, output, errors);
        return status_or_report(INPUT, answer, errors);
    };
    if !request.heard.later.is_empty() {
        let sources = Sources {
            file: path,
            later: &request.heard.later,
        };
        return audible_files(host, alloc, asked, sources, output, errors);
    }
    let name = path.as_str();
    match host.open_text(name) {
        Ok(mut file) => {
            let answer = audible_script(alloc, name, asked, &mut file, output, errors);
            status_or_report(name, answer, errors)
        }
        Err(error) => {
            let _ = writeln!(errors, "{name}: cannot be opened: {error}");
            Status::BadJournal
        }
    }
}
