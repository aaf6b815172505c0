//! The operating system, as a host of the program. Contracts say nothing about its effects: tests of the built program
//! show that each method makes the system calls that it is named after.

mod control_watch;
mod disk_file;
mod receiving;
mod reports;
mod system_host;

pub(crate) use crate::machine::system_host::SystemHost;
