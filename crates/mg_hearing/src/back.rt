ghost use Rattle.std.specs.Prelude.{◌++◌, take, List, OnOk, ℕ};
ghost use Rattle.std.specs.Io.KnownBytes.{Appends};
ghost use Rattle.mg_hearing.specs.aids.Parts.{IsOrigin, IsScale};

use crate::escaping::escaped;
use crate::origin::Origin;
use crate::page_text::{
    BROKEN, COMMAND, HASH, MISSING, PROGRAM, PROGRAM_HASH, SIZE, SOURCE, TABLE_END, TICKS, TIME,
    TRUST, WHOLE,
};
use crate::parts::write_parts;
use crate::script_fault::ScriptFault;
use crate::words::{first_words, last_words, script_name};
use mg_arguments::HeardRequest;
use mg_heard::{Extent, Moment, Scale};
use mg_options::{TOOLCHAIN, VERSION};
use std::alloc::Global;
use std::io::{self, Write};

/// Writes the end of a whole table, and the scale of its timeline.
fn write_scale<W: Write>(alloc: Global, scale: &Scale, output: &mut W) -> io::Result<()>
    ensures value { OnOk result ((text : List ℕ) × IsScale text
        × Appends (W.contents output.old) (W.contents output.new) text) }
{
    let first = scale.first;
    let end = scale.end.max(first.saturating_add(1));
    let variables = format!(in alloc; "--t0:{first};--t1:{end}")?;
    let ticks = format!(in alloc; "{first} to tick {end}")?;
    let variables = escaped(alloc, variables.as_bytes())?;
    let ticks = escaped(alloc, ticks.as_bytes())?;
    write_parts(
        &[
            TABLE_END,
            variables.as_slice(),
            TICKS,
            ticks.as_slice(),
            WHOLE,
        ],
        output,
    )
}

/// Writes a moment.
fn write_moment<W: Write>(moment: &Moment, output: &mut W) -> io::Result<()> {
    let tick = moment.tick;
    if let Some(date) = moment.date {
        output.write_all(date.text().as_slice())?;
        return write!(output, " (tick {tick})");
    }
    write!(output, "tick {tick}")
}

/// Returns the text of the time that a script covers.
fn covered_time(alloc: Global, extent: &Option<Extent>) -> io::Result<Vec<u8>> {
    let mut text = Vec::new(alloc);
    let Some(extent) = extent else {
        text.write_all(b"not known")?;
        return Ok(text);
    };
    if let Some(first) = &extent.first {
        write_moment(first, &mut text)?;
        text.write_all(b" until ")?;
    } else {
        text.write_all(b"no time of day, until ")?;
    }
    write_moment(&extent.end, &mut text)?;
    Ok(text)
}

/// Writes the end of a page, which states the page's origin.
fn write_origin<W: Write>(
    alloc: Global,
    request: &HeardRequest,
    origin: &Origin,
    output: &mut W,
) -> io::Result<()>
    ensures value { OnOk result ((text : List ℕ) × IsOrigin request.now (take 64 origin.now.script.end) text
        × Appends (W.contents output.old) (W.contents output.new) text) }
{
    let length = origin.script.length;
    let size = format!(in alloc; "{length}")?;
    let program = format!(in alloc; "mg_bridge {VERSION} ({TOOLCHAIN})")?;
    let program_digest = match &origin.program {
        Some(digest) => digest.digits(),
        None => b"not known".as_slice(),
    };
    let name = script_name(alloc, &request.file, &request.later)?;
    let name = escaped(alloc, name.as_slice())?;
    let size = escaped(alloc, size.as_bytes())?;
    let digest = escaped(alloc, origin.script.digits())?;
    let covered = escaped(alloc, covered_time(alloc, &origin.extent)?.as_slice())?;
    let program = escaped(alloc, program.as_bytes())?;
    let program_digest = escaped(alloc, program_digest)?;
    let options = escaped(alloc, first_words(alloc, request)?.as_slice())?;
    let last = escaped(alloc, last_words(alloc, request)?.as_slice())?;
    write_parts(
        &[
            SOURCE,
            name.as_slice(),
            SIZE,
            size.as_slice(),
            HASH,
            digest.as_slice(),
            TIME,
            covered.as_slice(),
            PROGRAM,
            program.as_slice(),
            PROGRAM_HASH,
            program_digest.as_slice(),
            COMMAND,
            options.as_slice(),
            last.as_slice(),
            TRUST,
        ],
        output,
    )
}

/// Writes the part of a whole page after its rows.
pub(crate) fn write_back<W: Write>(
    alloc: Global,
    request: &HeardRequest,
    scale: &Scale,
    origin: &Origin,
    output: &mut W,
) -> io::Result<()>
    ensures value { OnOk result ((scale_text : List ℕ) × (origin_text : List ℕ) × IsScale scale_text
        × IsOrigin request.now (take 64 origin.now.script.end) origin_text
        × Appends (W.contents output.old) (W.contents output.new) (scale_text ++ origin_text)) }
{
    write_scale(alloc, scale, output)?;
    write_origin(alloc, request, origin, output)
}

/// Writes the part of a page after its rows, if the script was not read to its end.
pub(crate) fn write_broken<W: Write>(
    alloc: Global,
    request: &HeardRequest,
    fault: &ScriptFault,
    origin: &Origin,
    output: &mut W,
) -> io::Result<()> {
    let message = format!(in alloc; "{fault}")?;
    let message = escaped(alloc, message.as_bytes())?;
    write_parts(&[BROKEN, message.as_slice(), MISSING], output)?;
    write_origin(alloc, request, origin, output)
}
