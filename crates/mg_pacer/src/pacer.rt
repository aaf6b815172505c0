ghost use Rattle.std.specs.Prelude.{◌≡◌, ◌*◌, ◌<◌, ◌≤◌};
ghost use Rattle.mg_pacer.specs.Pace.{Advances};
ghost use Rattle.mg_clock.specs.Ticks.{clock_seen};
ghost use Rattle.mg_pacer.specs.Run.{Paced};
ghost use Rattle.mg_pacer.specs.aids.Steps.{Turns};

use crate::fault::PaceFault;
use crate::lines::{write_last, write_steps};
use crate::options::Options;
use crate::schedule::Schedule;
use mg_clock::{MAX_POLLS, Watch};
use mg_lines::WriteFailed;
use std::io::Write;

/// Reports how many ticks were skipped.
fn report_left_out<E: Write>(left: u64, errors: &mut E)
    ensures quiet { left ≡ 0 → errors.new ≡ errors.old }
{
    if left > 0 {
        let _ = writeln!(errors, "skipped {left} ticks");
    }
}

/// Writes the lines that are due at the time `now`. Returns whether the last requested tick was written.
fn turn<W: Write, E: Write>(
    schedule: &mut Schedule,
    wanted: u64,
    now: u64,
    output: &mut W,
    errors: &mut E,
) -> Result<bool, WriteFailed>
    requires before { schedule.old.steps ≤ wanted * schedule.old.polls }
    ensures advances { Advances schedule.old now schedule.new }
    ensures value { Turns wanted schedule.old schedule.new (W.contents output.old) (W.contents output.new) result }
    ensures quiet { schedule.new.left ≡ schedule.old.left → errors.new ≡ errors.old }
{
    let from = schedule.steps();
    let left = schedule.left();
    let polls = schedule.polls();
    schedule.advance(now);
    report_left_out(schedule.left().saturating_sub(left), errors);
    let last = wanted.saturating_mul(polls);
    if schedule.steps() < last {
        write_steps(polls, from, schedule.steps(), output)?;
        return Ok(false);
    }
    write_last(polls, from, last, output)?;
    Ok(true)
}

/// Writes polls and ticks when a clock says that they are due, until the requested number of ticks has been written.
///
/// Fails with `Clock` if the clock cannot be read or was read 18,446,744,073,709,551,615 times, and with `Closed` if
/// the output is closed.
pub fn pace<K: Watch, W: Write, E: Write>(
    options: Options,
    watch: &mut K,
    output: &mut W,
    errors: &mut E,
) -> Result<(), PaceFault>
    requires some { 0 < options.polls }
    requires few { options.polls ≤ MAX_POLLS }
    ensures value { Paced options (K.Fails watch.new) (errors.new ≡ errors.old)
        (clock_seen (K.readings watch.old) (K.waits watch.old)) (clock_seen (K.readings watch.new) (K.waits watch.new))
        (W.contents output.old) (W.contents output.new) result }
{
    let mut schedule = Schedule::new(options.polls);
    for _turn in 0..u64::MAX {
        let now = watch.now()?;
        if turn(&mut schedule, options.ticks, now, output, errors)? {
            return Ok(());
        }
        let _ = watch.wait(schedule.wait(now));
    }
    Err(PaceFault::Clock)
}
