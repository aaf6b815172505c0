ghost use Rattle.std.specs.Prelude.{◌≡◌, IfOk};
ghost use Rattle.std.specs.List.{list_any};
ghost use Rattle.mg_core.specs.Base.{IsBase};
ghost use Rattle.mg_core.specs.Counting.{is_media};
ghost use Rattle.mg_core.specs.Follow.{IsFollowed};
ghost use Rattle.mg_core.specs.Note.{events_in};
ghost use Rattle.mg_core.specs.World.{World};
ghost use Rattle.mg_core.specs.declared.state.CoreState.{CoreState};
ghost use Rattle.mg_heard.specs.Reported.{WritesReport};
ghost use Rattle.mg_heard.specs.aids.Reporting.{HasReported};
ghost use Rattle.mg_audible.specs.Told.{TellsAudible};
ghost use Rattle.mg_audible.specs.aids.Keeping.{AllStandFor};

use crate::gateways::Gateways;
use crate::hearing::hear_talker;
use crate::talker_query::TalkerQuery;
use mg_heard::{HeardFault, LineWriter, Report, Style};
use std::alloc::Global;
use std::io::{Read, Write};

/// Reports when a talker was audible while a script ran on these gateways. Returns the report, and whether the script
/// has any RTP datagrams.
fn hear_report<'a, R: Read, W: Write>(
    alloc: Global,
    gateways: Gateways,
    reader: &mut R,
    talker: u32,
    report: Report<'a, W>,
) -> Result<(Report<'a, W>, bool), HeardFault>
    ensures same_reference { (base : World) → AllStandFor gateways base → IsBase base → base.tally.media ≡ 0 →
        IfOk result (λ heard. heard.0.writer.ghost_name ≡ report.entry.writer.ghost_name) }
    ensures reported { (base : World) → AllStandFor gateways base → IsBase base → base.tally.media ≡ 0 →
        IfOk result (λ heard. (state : CoreState) ×
        IsFollowed base (R.remaining reader.old) (R.remaining reader.new) state
        (λ notes. TellsAudible base talker notes (HasReported
        (record { style = report.entry.lines.now; query = report.entry.query.now; written = W.contents report.entry.writer.now })
        (record { style = heard.0.lines.now; query = heard.0.query.now; written = W.contents heard.0.writer.now }))
        × (heard.1 ≡ list_any is_media (events_in notes)))) }
{
    let (report, has_rtp) = hear_talker(alloc, gateways, reader, talker, report)?;
    Ok((report, has_rtp))
}

/// Runs a script on gateways that have counted no RTP datagrams, and prints when a talker was audible: one line for
/// each interval and each gap that the query selects. The line for an interval is written when the interval or the
/// script ends. Returns whether the script has any RTP datagrams. Without RTP datagrams, nothing is audible.
pub fn write_audible<R: Read, W: Write>(
    alloc: Global,
    gateways: Gateways,
    reader: &mut R,
    style: Style,
    asked: TalkerQuery,
    writer: &mut W,
) -> Result<bool, HeardFault>
    ensures report { (base : World) → AllStandFor gateways base → IsBase base → base.tally.media ≡ 0 →
        IfOk result (λ has_rtp. (state : CoreState) ×
        IsFollowed base (R.remaining reader.old) (R.remaining reader.new) state
        (λ notes. TellsAudible base asked.talker notes
        (WritesReport style asked.query (W.contents writer.old) (W.contents writer.new))
        × (has_rtp ≡ list_any is_media (events_in notes)))) }
{
    let Ok(mut lines) = LineWriter::new(alloc, style) else {
        return Err(HeardFault::NoMemory);
    };
    if lines.write_head(writer).is_err() {
        return Err(HeardFault::Stopped);
    }
    let report = Report {
        lines: &mut lines,
        query: &asked.query,
        writer,
    };
    let (report, has_rtp) = hear_report(alloc, gateways, reader, asked.talker, report)?;
    let Report { writer, .. } = report;
    // This line does nothing at run time. It makes the writer's contents available to the proof.
    let _ = &*writer;
    Ok(has_rtp)
}
