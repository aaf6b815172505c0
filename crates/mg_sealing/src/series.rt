ghost use Rattle.std.specs.Prelude.{◌≡◌, ◌++◌, None, OnOk, codes};
ghost use Rattle.std.specs.Io.KnownBytes.{Appends};
ghost use Rattle.mg_options.specs.Status.{UnlessFault};
ghost use Rattle.mg_sealing.specs.Report.{is_next, next_answer, next_report, report};
ghost use Rattle.mg_sealing.specs.Verify.{IsVerifiedNext};

use crate::report::report;
use crate::theorems::changes_show;
use crate::verifying::status_of;
use mg_chain::{END, Linked, Seals, read_linked};
use mg_options::Status;
use std::alloc::Global;
use std::io::{self, Read, Write};

/// The files of a journal, whose seals are checked in order, oldest first.
#[derive(Drop)]
pub struct Series {
    alloc: Global,
    /// The end of the seal that would follow the previous file, or `None` before the first file.
    before: Option<[u8; END]>,
}

/// Returns whether a file follows the previous file. Returns true for the first file.
fn is_next(before: &Option<[u8; END]>, linked: &Linked) -> bool
    ensures value { result ≡ is_next before.now linked.now }
{
    let Some(end) = before else {
        return true;
    };
    match &linked.seals.follows {
        Some(follows) => follows.as_slice() == end.as_slice(),
        None => false,
    }
}

/// Prints a line about the seals of the file with this name.
#[tactic(auto, using(crate::proofs::ReportLemmas::three_written))]
fn print_seals<W: Write>(name: &str, seals: &Seals, output: &mut W) -> io::Result<()>
    ensures value { OnOk result (Appends (W.contents output.old) (W.contents output.new)
        (name.now ++ (codes ": " ++ report seals.now))) }
{
    output.write_all(name.as_bytes())?;
    output.write_all(b": ")?;
    output.write_all(report(seals).as_slice())?;
    Ok(())
}

/// Prints that the file with this name doesn't follow the one before it.
#[tactic(auto, using(crate::proofs::ReportLemmas::two_written))]
fn print_apart<W: Write>(name: &str, output: &mut W) -> io::Result<()>
    ensures value { OnOk result (Appends (W.contents output.old) (W.contents output.new)
        (name.now ++ codes ": doesn't follow the file before it\n")) }
{
    output.write_all(name.as_bytes())?;
    output.write_all(b": doesn't follow the file before it\n")?;
    Ok(())
}

/// Prints the report about the file with this name.
#[tactic(auto, using(crate::proofs::ReportLemmas::two_written, crate::proofs::ReportLemmas::nothing_more))]
fn print_report<W: Write>(
    name: &str,
    linked: &Linked,
    is_next: bool,
    output: &mut W,
) -> io::Result<()>
    ensures value { OnOk result (Appends (W.contents output.old) (W.contents output.new)
        (next_report name.now linked.now is_next)) }
{
    print_seals(name, &linked.seals, output)?;
    if is_next {
        return Ok(());
    }
    print_apart(name, output)?;
    Ok(())
}

/// Returns the exit status for a file.
fn answer(linked: &Linked, is_next: bool) -> Status
    ensures value { result ≡ next_answer linked.now is_next }
{
    if is_next && linked.seals.wrong.is_none() {
        Status::Done
    } else {
        Status::BadLine
    }
}

impl Series {
    /// Starts before the first file.
    pub fn new(alloc: Global) -> Self
        ensures first { result.before ≡ None }
    {
        Series {
            alloc,
            before: None,
        }
    }

    /// Prints whether the seals in the next file, which has this name, are valid, and whether the file follows the one
    /// before it. Returns the exit status for this file. A fault is reported to `errors`.
    pub fn verify<R: Read, W: Write, E: Write>(
        &mut self,
        name: &str,
        reader: &mut R,
        output: &mut W,
        errors: &mut E,
    ) -> Status
        ensures value { UnlessFault (IsVerifiedNext self.old.before name.now (R.remaining reader.old)
            (W.contents output.old) (W.contents output.new) self.new.before result × (errors.new ≡ errors.old)) result }
    {
        changes_show();
        let linked = match read_linked(self.alloc, reader) {
            Ok(linked) => linked,
            Err(error) => {
                let _ = writeln!(errors, "{name}: cannot be read: {error}");
                return status_of(&error);
            }
        };
        let is_next = is_next(&self.before, &linked);
        self.before = Some(linked.end);
        match print_report(name, &linked, is_next, output) {
            Ok(()) => answer(&linked, is_next),
            Err(_) => {
                let _ = writeln!(errors, "the output cannot be written");
                Status::Failed
            }
        }
    }
}
