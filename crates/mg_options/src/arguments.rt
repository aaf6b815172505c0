ghost use Rattle.std.specs.Prelude.{◌≡◌, ◌≢◌};
ghost use Rattle.std.specs.IoError.{error_kind};

use crate::status::Status;
use std::io::{ErrorKind, Write};
use std::{env, io};

/// Returns the arguments after the program's name.
fn words(rt: &HostRuntime) -> io::Result<Vec<String>> {
    Ok(env::args(rt)?.skip(1).collect(rt.alloc())?)
}

/// Reports why the arguments cannot be read. Returns the exit status.
fn report_error<E: Write>(error: &io::Error, errors: &mut E) -> Status
    ensures memory { error_kind error.now ≡ ErrorKind.OutOfMemory → result ≡ Status.NoMemory }
    ensures usage { error_kind error.now ≢ ErrorKind.OutOfMemory → result ≡ Status.Usage }
{
    if error.kind() == ErrorKind::OutOfMemory {
        let _ = writeln!(errors, "out of memory");
        return Status::NoMemory;
    }
    let _ = writeln!(errors, "error: an argument is not valid UTF-8");
    Status::Usage
}

/// Returns the arguments of the running program, without the program's name. If they cannot be read, returns the exit
/// status.
///
/// Reading the arguments fails if an argument is not valid UTF-8, which is a usage error, or if memory runs out. Errors
/// are reported to `errors`.
pub fn program_arguments<E: Write>(
    rt: &HostRuntime,
    errors: &mut E,
) -> Result<Vec<String>, Status> {
    match words(rt) {
        Ok(words) => Ok(words),
        Err(error) => Err(report_error(&error, errors)),
    }
}
