ghost use Rattle.std.specs.Prelude.{◌≡◌, IfOk, true};
ghost use Rattle.mg_core.specs.Follow.{IsFollowed};
ghost use Rattle.mg_core.specs.Note.{events_in};
ghost use Rattle.mg_core.specs.World.{World};
ghost use Rattle.mg_core.specs.declared.state.CoreState.{CoreState};
ghost use Rattle.mg_heard.specs.Told.{TellsAll};
ghost use Rattle.mg_heard.specs.aids.Calling.{AreMissing};
ghost use Rattle.mg_options.specs.Status.{UnlessFault};
ghost use Rattle.mg_hearing.specs.Absence.{Receives};
ghost use Rattle.mg_hearing.specs.Heard.{IsHeard};
ghost use Rattle.mg_hearing.specs.aids.Beginning.{IsBeginningOf};
ghost use Rattle.mg_hearing.specs.aids.Parts.{WritesTable};
ghost use Rattle.mg_hearing.specs.aids.Forms.{is_page};

use crate::absence::report_missing;
use crate::answering::status_if;
use crate::asking::Asking;
use crate::back::{write_back, write_broken};
use crate::beginning::{Beginning, begin};
use crate::front::write_front;
use crate::hashed::Hashed;
use crate::origin::Origin;
use crate::question::Question;
use crate::script_fault::ScriptFault;
use crate::start::Start;
use crate::starting::start_core;
use crate::text_key::TextKey;
use mg_arguments::HeardRequest;
use mg_heard::{Extent, HeardFault, Missing, Scale, write_report};
use mg_options::Status;
use std::alloc::Global;
use std::fs::Files;
use std::io::{Error, ErrorKind, Read, Write};
use std::marker::Brand;

/// Returns the fault for a page that can't be written.
fn fault_of(error: &Error) -> ScriptFault {
    if error.kind() == ErrorKind::OutOfMemory {
        ScriptFault::Heard(HeardFault::NoMemory)
    } else {
        ScriptFault::Heard(HeardFault::Stopped)
    }
}

/// Writes a page about a script on a gateway that begins like this, up to its last row. Returns the range of ticks that the
/// intervals in its rows cover, the time that the script covers, and whether the question's talker and listener are
/// missing.
fn write_table<R: Read, W: Write>(
    alloc: Global,
    start: &Start,
    request: &HeardRequest,
    question: Question,
    reader: &mut R,
    output: &mut W,
) -> Result<(Scale, Extent, Missing), ScriptFault>
    ensures value { IfOk result (λ written. (base : World) × IsBeginningOf start.now base × (state : CoreState) ×
        IsFollowed base (R.remaining reader.old) (R.remaining reader.new) state
        (λ notes. AreMissing base (events_in notes) question.query.talker question.query.listener written.2
        × TellsAll base notes
        (λ _. WritesTable request.now question (W.contents output.old) (W.contents output.new)))) }
{
    let Question { style, query, .. } = question;
    match write_front(alloc, request, output) {
        Ok(()) => {
            let core = start_core(alloc, start)?;
            let written = write_report(alloc, core, reader, style, query, output)?;
            Ok(written)
        }
        Err(error) => Err(fault_of(&error)),
    }
}

/// Prints a page about the script that `reader` supplies. If the output of the page has begun, a fault is also reported
/// on the page.
fn write_page<F: Files, R: Read, K: TextKey, W: Write, E: Write>(
    files: &F,
    alloc: Global,
    asking: Asking<'_>,
    reader: &mut R,
    output: &mut W,
    errors: &mut E,
) -> Result<Status, ScriptFault>
    requires page { is_page asking.question.style.format ≡ true }
    requires text { R.remaining reader.old ≡ K.text }
    ensures value { IfOk result (λ status. UnlessFault
        (IsHeard asking.entry.request.now asking.entry.question (R.remaining reader.old)
        (W.contents output.old) (W.contents output.new) (Receives E.contents errors.old errors.new) status) status) }
{
    let Asking { request, question } = asking;
    let mut hashed = Hashed::<&mut R, K>::new(reader);
    let Beginning {
        front,
        start,
        lines,
    } = begin(alloc, &mut hashed)?;
    let mut script = front.as_slice().chain(hashed);
    match write_table(alloc, &start, request, question, &mut script, output) {
        Ok((scale, extent, missing)) => {
            let (_, hashed) = script.into_inner();
            let origin = Origin::of(files, &hashed, Some(extent));
            match write_back(alloc, request, &scale, &origin, output) {
                Ok(()) => Ok(report_missing(alloc, request, missing, status_if(missing), errors)),
                Err(error) => Err(fault_of(&error)),
            }
        }
        Err(fault) => {
            let (_, hashed) = script.into_inner();
            let origin = Origin::of(files, &hashed, None);
            let fault = fault.behind(lines);
            let _ = write_broken(alloc, request, &fault, &origin, output);
            Err(fault)
        }
    }
}

/// Prints a page about the script that `reader` supplies. If the output of the page has begun, a fault is also reported
/// on the page.
pub(crate) fn hear_page<F: Files, R: Read, W: Write, E: Write>(
    files: &F,
    alloc: Global,
    asking: Asking<'_>,
    reader: &mut R,
    output: &mut W,
    errors: &mut E,
) -> Result<Status, ScriptFault>
    requires page { is_page asking.question.style.format ≡ true }
    ensures value { IfOk result (λ status. UnlessFault
        (IsHeard asking.entry.request.now asking.entry.question (R.remaining reader.old)
        (W.contents output.old) (W.contents output.new) (Receives E.contents errors.old errors.new) status) status) }
{
    write_page::<F, R, Brand, W, E>(files, alloc, asking, reader, output, errors)
}
