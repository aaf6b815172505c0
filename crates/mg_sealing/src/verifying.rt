ghost use Rattle.std.specs.Prelude.{◌≡◌, ◌⊎◌, List, Option, ℕ};
ghost use Rattle.mg_sealing.specs.Report.{answer};
ghost use Rattle.mg_options.specs.Status.{UnlessFault};
ghost use Rattle.mg_sealing.specs.Verify.{IsVerified};

use crate::report::report;
use crate::theorems::changes_show;
use mg_chain::{Seals, read_seals};
use mg_options::Status;
use std::alloc::Global;
use std::io::{Error, ErrorKind, Read, Write};

/// The name of standard input in messages.
const INPUT: &str = "standard input";

/// Returns the exit status after a read or a write failed.
pub(crate) fn status_of(error: &Error) -> Status
    ensures ends { (result ≡ Status.Failed) ⊎ (result ≡ Status.NoMemory) }
{
    if error.kind() == ErrorKind::OutOfMemory {
        Status::NoMemory
    } else {
        Status::Failed
    }
}

/// Returns the exit status that reports whether the seals are valid.
fn answer(seals: &Seals) -> Status
    ensures value { result ≡ answer seals.now.right seals.now.wrong }
{
    match (seals.wrong, seals.right) {
        (Some(_), _) => Status::BadLine,
        (None, Some(_)) => Status::Done,
        (None, None) => Status::Unknown,
    }
}

/// Prints whether the seals in the text with this name are valid. Returns the exit status. A fault is reported to
/// `errors`.
pub fn verify_text<R: Read, W: Write, E: Write>(
    alloc: Global,
    name: &str,
    reader: &mut R,
    output: &mut W,
    errors: &mut E,
) -> Status
    ensures value { UnlessFault (IsVerified (R.remaining reader.old) (W.contents output.old) (W.contents output.new)
        result × (errors.new ≡ errors.old)) result }
{
    changes_show();
    let seals = match read_seals(alloc, reader) {
        Ok(seals) => seals,
        Err(error) => {
            let _ = writeln!(errors, "{name}: cannot be read: {error}");
            return status_of(&error);
        }
    };
    match output.write_all(report(&seals).as_slice()) {
        Ok(()) => answer(&seals),
        Err(_) => {
            let _ = writeln!(errors, "the output cannot be written");
            Status::Failed
        }
    }
}

/// Prints whether the seals in the input are valid. Returns the exit status. A fault is reported to `errors`.
pub fn verify_input<R: Read, W: Write, E: Write>(
    alloc: Global,
    input: &mut R,
    output: &mut W,
    errors: &mut E,
) -> Status
    ensures value { UnlessFault (IsVerified (R.remaining input.old) (W.contents output.old) (W.contents output.new)
        result × (errors.new ≡ errors.old)) result }
{
    verify_text(alloc, INPUT, input, output, errors)
}
