ghost use Rattle.std.specs.Prelude.{◌≡◌, [], ◌∷◌, IsSome, None, Some};
ghost use Rattle.mg_options.specs.Status.{UnlessFault};
ghost use Rattle.mg_program.specs.Verify.{AreVerified, IsVerifiedFrom};
ghost use Rattle.mg_program.specs.aids.Verifying.{IsNext, UnlessErr, end_status, validity_of};

use mg_host::{Environment, Outside, Texts};
use mg_options::Status;
use mg_sealing::{Series, verify_input, verify_text};
use mg_service::FilePath;
use std::alloc::Global;
use std::io::Write;

/// Prints whether the seals in a file are valid. Returns the exit status. A fault is reported to `errors`.
fn verify_file<E: Environment>(alloc: Global, outside: &mut Outside<E>, path: &FilePath) -> Status
    ensures value { UnlessFault (IsVerifiedFrom (Some path.now) [] (E.Host.calls outside.old.host)
        (E.Host.calls outside.new.host) None (E.Output.contents outside.old.output)
        (E.Output.contents outside.new.output) result × (outside.new.errors ≡ outside.old.errors)) result }
    ensures unread { outside.new.input ≡ outside.old.input }
{
    let name = path.as_str();
    let (output, errors) = (&mut outside.output, &mut outside.errors);
    match outside.host.open_text(name) {
        Ok(mut file) => verify_text(alloc, name, &mut file, output, errors),
        Err(error) => {
            let _ = writeln!(errors, "{name}: cannot be opened: {error}");
            Status::BadJournal
        }
    }
}

/// Returns whether the exit status for a file says that its seals are valid and that it follows the file before it. The
/// error is the exit status of a fault.
fn validity(status: Status) -> Result<bool, Status>
    ensures value { result ≡ validity_of status }
{
    match status {
        Status::Done => Ok(true),
        Status::BadLine => Ok(false),
        fault => Err(fault),
    }
}

/// Prints whether the seals in the next of several files are valid, and whether it follows the file before it. Returns
/// whether both are true. A fault is reported to `errors`, and the error is its exit status.
fn verify_next<E: Environment>(
    series: &mut Series,
    outside: &mut Outside<E>,
    path: &FilePath,
) -> Result<bool, Status>
    ensures value { UnlessErr (λ status. IsNext path.now series.old.before series.new.before
        (E.Host.calls outside.old.host) (E.Host.calls outside.new.host) (E.Output.contents outside.old.output)
        (E.Output.contents outside.new.output) status × (outside.new.errors ≡ outside.old.errors)) result }
    ensures unread { outside.new.input ≡ outside.old.input }
{
    let name = path.as_str();
    let (output, errors) = (&mut outside.output, &mut outside.errors);
    match outside.host.open_text(name) {
        Ok(mut file) => validity(series.verify(name, &mut file, output, errors)),
        Err(error) => {
            let _ = writeln!(errors, "{name}: cannot be opened: {error}");
            Err(Status::BadJournal)
        }
    }
}

/// Prints whether the seals in files are valid, and whether each later file follows the one before it. Returns whether
/// all this is true. A fault is reported to `errors`, and the error is its exit status.
fn verify_files<E: Environment>(
    alloc: Global,
    outside: &mut Outside<E>,
    path: &FilePath,
    later: &[FilePath],
) -> Result<bool, Status>
    ensures value { UnlessErr (λ status. AreVerified (path.now ∷ later.now) None (E.Host.calls outside.old.host)
        (E.Host.calls outside.new.host) (E.Output.contents outside.old.output) (E.Output.contents outside.new.output)
        status × (outside.new.errors ≡ outside.old.errors)) result }
    ensures unread { outside.new.input ≡ outside.old.input }
{
    let mut series = Series::new(alloc);
    let mut are_valid = verify_next(&mut series, outside, path)?;
    for next in later {
        let is_valid = verify_next(&mut series, outside, next)?;
        are_valid = are_valid && is_valid;
    }
    Ok(are_valid)
}

/// Returns the exit status for several files. The error is the exit status of a fault.
fn end_status(validity: Result<bool, Status>) -> Status
    ensures value { result ≡ end_status validity }
{
    match validity {
        Ok(true) => Status::Done,
        Ok(false) => Status::BadLine,
        Err(fault) => fault,
    }
}

/// Prints whether the seals in a file are valid, or the seals in the input if `file` is `None`. If there are later
/// files, also prints whether each of them follows the one before it. Returns the exit status. A fault is reported to
/// `errors`.
pub fn verify<E: Environment>(
    alloc: Global,
    outside: &mut Outside<E>,
    file: &Option<FilePath>,
    later: &[FilePath],
) -> Status
    ensures value { UnlessFault (IsVerifiedFrom file.now later.now (E.Host.calls outside.old.host)
        (E.Host.calls outside.new.host) (E.Input.remaining outside.old.input) (E.Output.contents outside.old.output)
        (E.Output.contents outside.new.output) result × (outside.new.errors ≡ outside.old.errors)) result }
    ensures unread { IsSome file.now → outside.new.input ≡ outside.old.input }
{
    match file {
        Some(path) if later.is_empty() => verify_file(alloc, outside, path),
        Some(path) => end_status(verify_files(alloc, outside, path, later)),
        None => verify_input(
            alloc,
            &mut outside.input,
            &mut outside.output,
            &mut outside.errors,
        ),
    }
}
