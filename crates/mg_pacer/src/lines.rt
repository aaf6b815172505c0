ghost use Rattle.std.specs.Prelude.{◌≡◌, ◌+◌, ◌*◌, ◌<◌, ◌≤◌, codes};
ghost use Rattle.std.specs.Io.KnownBytes.{Appends};
ghost use Rattle.mg_lines.specs.Streams.{Writes};
ghost use Rattle.mg_pacer.specs.aids.Steps.{WritesLast, WritesSteps};
ghost use Rattle.mg_clock.specs.aids.Steps.{step_lines};

use mg_lines::{WriteFailed, write_whole};
use std::io::Write;

/// Writes the lines for a step.
fn write_step<W: Write>(polls: u64, step: u64, output: &mut W) -> Result<(), WriteFailed>
    requires some { 0 < polls }
    ensures value { Writes (step_lines polls step) (W.contents output.old) (W.contents output.new) result }
{
    if step % polls == 0 {
        write_whole(b"poll\ntick\n", output)
    } else {
        write_whole(b"poll\n", output)
    }
}

/// Writes the lines for the steps after `from`, up to `to`.
pub fn write_steps<W: Write>(
    polls: u64,
    from: u64,
    to: u64,
    output: &mut W,
) -> Result<(), WriteFailed>
    requires some { 0 < polls }
    requires order { from ≤ to }
    ensures value { WritesSteps polls from to (W.contents output.old) (W.contents output.new) result }
{
    for step in from..to {
        write_step(polls, step + 1, output)?;
    }
    Ok(())
}

/// Writes the lines for the last steps, and the line that ends the run.
pub fn write_last<W: Write>(
    polls: u64,
    from: u64,
    to: u64,
    output: &mut W,
) -> Result<(), WriteFailed>
    requires some { 0 < polls }
    requires order { from ≤ to }
    ensures value { WritesLast polls from to (W.contents output.old) (W.contents output.new) result }
{
    write_steps(polls, from, to, output)?;
    write_whole(b"quit\n", output)
}
