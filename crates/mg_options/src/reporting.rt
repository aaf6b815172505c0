ghost use Rattle.std.specs.Prelude.{◌≡◌};
ghost use Rattle.clap.specs.Words.{kind_of};
ghost use Rattle.mg_options.specs.Ends.{ReportsError};

use crate::command::TOOLCHAIN;
use crate::status::Status;
use clap::Error;
use clap::error::ErrorKind;
use std::io;
use std::io::Write;

/// Prints help, or the version and the toolchain.
fn print_information<W: Write>(error: &Error, output: &mut W) -> io::Result<()> {
    if error.kind() == ErrorKind::DisplayVersion {
        writeln!(output, "{error}{TOOLCHAIN}")
    } else {
        write!(output, "{error}")
    }
}

/// Reports that help or the version could not be printed, unless the program succeeds anyway.
fn report_unprinted<E: Write>(unprinted: Status, errors: &mut E)
    ensures quiet { unprinted ≡ Status.Done → errors.new ≡ errors.old }
{
    if unprinted != Status::Done {
        let _ = writeln!(errors, "write failed");
    }
}

/// Reports the result of parsing a command line, and returns the exit status.
///
/// Help and the version go to the output; the version has a second line, which names the toolchain. Usage errors and
/// out-of-memory errors go to `errors`. `unprinted` is the exit status if help or the version cannot be printed.
pub fn report_error<W: Write, E: Write>(
    error: &Error,
    unprinted: Status,
    output: &mut W,
    errors: &mut E,
) -> Status
    ensures reported { ReportsError (kind_of error.now) unprinted output.old output.new result }
    ensures quiet { result ≡ Status.Done → errors.new ≡ errors.old }
{
    match error.kind() {
        ErrorKind::OutOfMemory => {
            let _ = writeln!(errors, "out of memory");
            Status::NoMemory
        }
        ErrorKind::DisplayHelp | ErrorKind::DisplayVersion => {
            match print_information(error, output) {
                Ok(()) => Status::Done,
                Err(_) => {
                    report_unprinted(unprinted, errors);
                    unprinted
                }
            }
        }
        _ => {
            let _ = write!(errors, "{error}");
            Status::Usage
        }
    }
}
