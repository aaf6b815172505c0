//! The command-line handling that the programs share, built on `clap`.
//!
//! This crate handles numeric options, `--version`, error reports and exit statuses.
//!
//! ```rust
//! let command = program_command(alloc, "gateway", "Joins calls").arg(short_number(alloc, "port"))?;
//! let status = match command.try_get_matches_from(&["--port", "2944"]) {
//!     Ok(matches) => serve(short_value(&matches, "port")),
//!     Err(error) => report_error(&error, Status::Failed, &mut output, &mut errors),
//! };
//! ExitCode::from(status.code())
//! ```
//!
//! A number is decimal, with an optional plus sign. The parser rejects anything else, and also numbers that are too
//! large. So a value is missing only if the option was not given. `specs/Numbers.antt` defines the numbers, and
//! `specs/Ends.antt` defines how a program ends.
#![tactic(auto)]

mod arguments;
mod command;
mod reporting;
mod rule;
mod status;
mod value;

pub use arguments::program_arguments;
pub use command::{TOOLCHAIN, VERSION, program_command};
pub use reporting::report_error;
pub use rule::{long_number, short_number};
pub use status::Status;
pub use value::{long_value, short_value};
