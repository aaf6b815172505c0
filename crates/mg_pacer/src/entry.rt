ghost use Rattle.std.specs.Prelude.{◌≡◌, ◌<◌, ◌≤◌, map};
ghost use Rattle.mg_options.specs.Ends.{EndsWith};
ghost use Rattle.mg_pacer.specs.Options.{requested};
ghost use Rattle.mg_pacer.specs.Program.{Runs};
ghost use Rattle.mg_clock.specs.Ticks.{clock_seen};

use crate::fault::PaceFault;
use crate::options::{Options, requested_options};
use crate::pacer::pace;
use crate::status::status_of;
use mg_clock::{MAX_POLLS, Watch};
use mg_options::{Status, report_error};
use std::alloc::Global;
use std::convert::AsStr;
use std::io::Write;

/// Runs the pacer once, and reports an error if the clock fails.
fn run<K: Watch, W: Write, E: Write>(
    options: Options,
    watch: &mut K,
    output: &mut W,
    errors: &mut E,
) -> Status
    requires some { 0 < options.polls }
    requires few { options.polls ≤ MAX_POLLS }
    ensures value { Runs options (K.Fails watch.new) (errors.new ≡ errors.old)
        (clock_seen (K.readings watch.old) (K.waits watch.old)) (clock_seen (K.readings watch.new) (K.waits watch.new))
        (W.contents output.old) (W.contents output.new) result }
{
    let outcome = pace(options, watch, output, errors);
    if let Err(PaceFault::Clock) = &outcome {
        let _ = writeln!(errors, "{}", PaceFault::Clock);
    }
    status_of(&outcome)
}

/// Runs the program with these arguments, which don't include the program's name. Returns its exit status.
///
/// The status is 0 when the run finishes, when the output is closed, or after a request for help or the version. It is
/// 2 for invalid arguments, 3 if the clock failed, and 4 if memory ran out. If the status is nonzero, an error message
/// goes to `errors`; skipped ticks are also reported there.
pub fn program<'a, S: AsStr, K: Watch, W: Write, E: Write>(
    alloc: Global,
    words: &'a [S],
    watch: &mut K,
    output: &mut W,
    errors: &mut E,
) -> u8
    ensures status { result ≤ 4 }
    // The status says whether the program did what the arguments request and, if not, why.
    ensures ends { EndsWith (λ options status. Runs options (K.Fails watch.new) (errors.new ≡ errors.old)
        (clock_seen (K.readings watch.old) (K.waits watch.old)) (clock_seen (K.readings watch.new) (K.waits watch.new))
        (W.contents output.old) (W.contents output.new) status)
        (requested (map S.text words.now)) Status.Done (watch.new ≡ watch.old) (errors.new ≡ errors.old) output.old
        output.new result }
{
    let status = match requested_options(alloc, words) {
        Ok(options) => run(options, watch, output, errors),
        Err(error) => report_error(&error, Status::Done, output, errors),
    };
    status.code()
}
