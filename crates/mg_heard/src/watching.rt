ghost use Rattle.std.specs.Prelude.{IfOk, Some};
ghost use Rattle.mg_core.specs.World.{World};
ghost use Rattle.mg_core.specs.aids.Stands.{StandsFor};
ghost use Rattle.mg_heard.specs.Never.{IsWatched, WritesViolation};

use crate::attended::Attended;
use crate::heard_fault::HeardFault;
use crate::hearing::fault_of;
use crate::line_writer::LineWriter;
use crate::missing::Missing;
use crate::roll::{call_all, missing_of, rolls_of};
use crate::rule::Rule;
use crate::style::Style;
use crate::violation::Violation;
use crate::watch::Watch;
use mg_core::{Core, watch_from};
use std::alloc::Global;
use std::io::{Read, Write};

/// Runs a script on a gateway in this state until a rule is broken, or to its end. Returns the first violation, or
/// `None` if no rule was broken. For each rule, also returns who is missing: a talker or a listener that the rule names
/// and the gateway never had.
///
/// A rule is broken if a flow that it forbids is open before a tick or at the script's end. All ticks that have arrived
/// are checked before more of the script is read.
pub fn find_violation<R: Read>(
    alloc: Global,
    core: Core,
    reader: &mut R,
    rules: &[Rule],
) -> Result<(Option<Violation>, Vec<Missing>), HeardFault>
    ensures watched { (base : World) → StandsFor core.state base → IfOk result (λ found. IsWatched rules.now base
        (R.remaining reader.old) (R.remaining reader.new) found.0 found.1.items) }
{
    let Ok(mut rolls) = rolls_of(alloc, rules) else {
        return Err(HeardFault::NoMemory);
    };
    call_all(&mut rolls, &core);
    let Ok(follower) = Watch::new(alloc, rules) else {
        return Err(HeardFault::NoMemory);
    };
    let mut attended = Attended { follower, rolls };
    match watch_from(alloc, core, reader, &mut attended) {
        Ok(core) => {
            mg_core::theorems::outcomes_are_unique();
            attended.follower.compare(&core);
            match missing_of(alloc, attended.rolls.as_slice()) {
                Ok(missing) => Ok((attended.follower.violation, missing)),
                Err(_) => Err(HeardFault::NoMemory),
            }
        }
        Err(fault) => Err(fault_of(fault, attended.follower.fault)),
    }
}

/// Writes the line for a violation.
fn write_line<W: Write>(
    alloc: Global,
    style: Style,
    violation: &Violation,
    writer: &mut W,
) -> Result<(), HeardFault>
    ensures value { IfOk result (λ _.
        WritesViolation style (Some violation.now) (W.contents writer.old) (W.contents writer.new)) }
{
    let Ok(mut lines) = LineWriter::new(alloc, style) else {
        return Err(HeardFault::NoMemory);
    };
    match lines.write_violation(violation, writer) {
        Ok(_) => Ok(()),
        Err(_) => Err(HeardFault::Stopped),
    }
}

/// Runs a script on a gateway in this state until a rule is broken, or to its end. If a rule was broken, writes a line
/// for the violation. Returns the first violation, or `None`. For each rule, also returns who is missing: a talker or a
/// listener that the rule names and the gateway never had.
pub fn write_violation<R: Read, W: Write>(
    alloc: Global,
    core: Core,
    reader: &mut R,
    style: Style,
    rules: &[Rule],
    writer: &mut W,
) -> Result<(Option<Violation>, Vec<Missing>), HeardFault>
    ensures watched { (base : World) → StandsFor core.state base → IfOk result (λ found. IsWatched rules.now base
        (R.remaining reader.old) (R.remaining reader.new) found.0 found.1.items) }
    ensures written { IfOk result (λ found.
        WritesViolation style found.0 (W.contents writer.old) (W.contents writer.new)) }
{
    let (found, missing) = find_violation(alloc, core, reader, rules)?;
    let Some(violation) = found else {
        return Ok((None, missing));
    };
    write_line(alloc, style, &violation, writer)?;
    Ok((Some(violation), missing))
}
