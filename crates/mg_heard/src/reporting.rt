ghost use Rattle.std.specs.Prelude.{◌≡◌, IfOk};
ghost use Rattle.mg_core.specs.Follow.{IsFollowed};
ghost use Rattle.mg_core.specs.Note.{events_in};
ghost use Rattle.mg_core.specs.World.{World};
ghost use Rattle.mg_core.specs.aids.Stands.{StandsFor};
ghost use Rattle.mg_core.specs.declared.state.CoreState.{CoreState};
ghost use Rattle.mg_heard.specs.Came.{unless_missing};
ghost use Rattle.mg_heard.specs.aids.Calling.{AreMissing};
ghost use Rattle.mg_heard.specs.declared.verdict.Verdict.TheVariants as verdicts;
ghost use Rattle.mg_heard.specs.Reported.{WritesReport, WritesVerdict};
ghost use Rattle.mg_heard.specs.aids.Reporting.{HasReported};
ghost use Rattle.mg_heard.specs.Told.{TellsAll};
ghost use Rattle.mg_heard.specs.Verdict.{verdict_at};

use crate::answering::hear_at;
use crate::extent::Extent;
use crate::heard_fault::HeardFault;
use crate::hearing::hear;
use crate::line_writer::LineWriter;
use crate::missing::Missing;
use crate::query::Query;
use crate::report::Report;
use crate::roll::Roll;
use crate::scale::Scale;
use crate::style::Style;
use crate::verdict::Verdict;
use mg_core::Core;
use mg_dates::Date;
use std::alloc::Global;
use std::io::{Read, Write};

/// Reports who could hear whom while a script ran on a gateway in this state. Returns the report, the time that the
/// script covers, and who is missing. A talker or a listener is missing if the report's query names it and the gateway
/// never had it.
fn hear_report<'a, R: Read, W: Write>(
    alloc: Global,
    core: Core,
    reader: &mut R,
    report: Report<'a, W>,
) -> Result<(Report<'a, W>, Extent, Missing), HeardFault>
    ensures same_reference { (base : World) → StandsFor core.state base →
        IfOk result (λ heard. heard.0.writer.ghost_name ≡ report.entry.writer.ghost_name) }
    ensures reported { (base : World) → StandsFor core.state base → IfOk result (λ heard. (state : CoreState) ×
        IsFollowed base (R.remaining reader.old) (R.remaining reader.new) state
        (λ notes. AreMissing base (events_in notes) report.entry.query.now.talker report.entry.query.now.listener heard.2
        × TellsAll base notes (λ extent xs. HasReported
        (record { style = report.entry.lines.now; query = report.entry.query.now; written = W.contents report.entry.writer.now })
        (record { style = heard.0.lines.now; query = heard.0.query.now; written = W.contents heard.0.writer.now }) xs
        × (heard.1 ≡ extent)))) }
{
    let Ok(roll) = Roll::of_query(alloc, report.query) else {
        return Err(HeardFault::NoMemory);
    };
    let (report, extent, missing) = hear(alloc, core, reader, report, roll)?;
    Ok((report, extent, missing))
}

/// Writes who could hear whom while a script ran on a gateway in this state: a line for each interval and each gap that
/// `query` selects. The line for an interval is written when the interval or the script ends. Returns the range of
/// ticks from the first beginning to the last end of the selected intervals, or all ticks if there is no such interval.
/// Also returns the time that the script covers, and who is missing. A talker or a listener is missing if `query` names
/// it and the gateway never had it.
pub fn write_report<R: Read, W: Write>(
    alloc: Global,
    core: Core,
    reader: &mut R,
    style: Style,
    query: Query,
    writer: &mut W,
) -> Result<(Scale, Extent, Missing), HeardFault>
    ensures report { (base : World) → StandsFor core.state base → IfOk result (λ written. (state : CoreState) ×
        IsFollowed base (R.remaining reader.old) (R.remaining reader.new) state
        (λ notes. AreMissing base (events_in notes) query.talker query.listener written.2
        × TellsAll base notes (λ extent xs.
        WritesReport style query (W.contents writer.old) (W.contents writer.new) xs × (written.1 ≡ extent)))) }
{
    let Ok(mut lines) = LineWriter::new(alloc, style) else {
        return Err(HeardFault::NoMemory);
    };
    if lines.write_head(writer).is_err() {
        return Err(HeardFault::Stopped);
    }
    let report = Report {
        lines: &mut lines,
        query: &query,
        writer,
    };
    let (report, extent, missing) = hear_report(alloc, core, reader, report)?;
    let Report { writer, .. } = report;
    // This line does nothing at run time. It makes the writer's contents available to the proof.
    let _ = &*writer;
    Ok((lines.scale(&extent), extent, missing))
}

/// Writes the line of an answer.
fn write_verdict<W: Write>(
    alloc: Global,
    style: Style,
    verdict: &Verdict,
    writer: &mut W,
) -> Result<(), HeardFault>
    ensures value { IfOk result (λ _. WritesVerdict style verdict.now (W.contents writer.old) (W.contents writer.new)) }
{
    let Ok(mut lines) = LineWriter::new(alloc, style) else {
        return Err(HeardFault::NoMemory);
    };
    match lines.write_verdict(verdict, writer) {
        Ok(_) => Ok(()),
        Err(_) => Err(HeardFault::Stopped),
    }
}

/// Runs a script on a gateway in this state, and writes one line that answers whether a listener could hear a talker at
/// a given time. `query` selects the listeners and the talkers. Returns the answer, and who is missing: a talker or a
/// listener that `query` names and the gateway never had. If somebody is missing, the answer is not known.
pub fn write_answer<R: Read, W: Write>(
    alloc: Global,
    core: Core,
    reader: &mut R,
    style: Style,
    query: Query,
    time: Date,
    writer: &mut W,
) -> Result<(Verdict, Missing), HeardFault>
    ensures answer { (base : World) → StandsFor core.state base → IfOk result (λ answer. (state : CoreState) ×
        IsFollowed base (R.remaining reader.old) (R.remaining reader.new) state
        (λ notes. AreMissing base (events_in notes) query.talker query.listener answer.1
        × TellsAll base notes (λ extent xs. answer.0 ≡ unless_missing verdicts.Unknown answer.1 (verdict_at query time extent xs)))) }
    ensures written { IfOk result (λ answer.
        WritesVerdict style answer.0 (W.contents writer.old) (W.contents writer.new)) }
{
    let (verdict, missing) = hear_at(alloc, core, reader, query, time)?;
    let verdict = verdict.if_known(missing);
    write_verdict(alloc, style, &verdict, writer)?;
    Ok((verdict, missing))
}
