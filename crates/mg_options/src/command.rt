ghost use Rattle.std.specs.Prelude.{◌≡◌};
ghost use Rattle.clap.specs.Words.{app_of};
ghost use Rattle.mg_options.specs.Line.{program_line};

use clap::Command;
use std::alloc::Global;

/// The version of the programs.
pub const VERSION: &str = "0.5.0";

/// The toolchain that proves and builds the programs, as `rt version` prints it. `.ci/dist` checks that this
/// text is what `rt version` prints.
pub const TOOLCHAIN: &str = "rattle-kit-13f logic dac8208d650f15bf";

/// Creates the command line of a program, to which options and subcommands are added.
///
/// Its arguments do not include the program's name. `--version` prints the name and the version, then the toolchain on
/// a line of its own ([`report_error`](crate::report_error)).
pub fn program_command<'a>(alloc: Global, name: &'a str, about: &'a str) -> Command<'a>
    ensures app { app_of result ≡ program_line name.now }
{
    Command::new(alloc, name)
        .about(about)
        .version(VERSION)
        .no_binary_name(true)
}
