//! The machine on which a program runs, as the program sees it.
//!
//! A [`Host`] opens files, has UDP sockets and a clock, and knows the date. It may log the calls in one list, with
//! their arguments and results ([`Tells`]). So contracts can refer to the content of files and to the datagrams
//! received and sent. `specs/HostCalls.antt` defines the log of calls.
//!
//! [`Environment`] names the types of a program's host, its streams ([`Outside`]) and the other parts of the operating
//! system that it uses ([`System`]).
//!
//! A program is generic over its host, so its contracts also hold for a host that logs its calls. The program can't
//! find out whether it runs on such a host. The operating system logs nothing. [`FakeHost`] is a host in memory:
//!
//! ```rust
//! let mut host = FakeHost::new(alloc, Some(journal), None, waiting);
//! let mut file = host.open_journal("journal.txt")?;
//! ```
#![tactic(auto)]

mod clocks;
mod dates;
mod environment;
mod fake_host;
mod fake_watch;
mod host;
mod host_call;
mod host_log;
mod journals;
mod outside;
mod sockets;
mod system;
mod tells;
mod texts;
mod unsent;

pub use crate::clocks::Clocks;
pub use crate::dates::Dates;
pub use crate::environment::Environment;
pub use crate::fake_host::FakeHost;
pub use crate::fake_watch::FakeWatch;
pub use crate::host::Host;
pub use crate::host_call::HostCall;
pub use crate::journals::Journals;
pub use crate::outside::Outside;
pub use crate::sockets::Sockets;
pub use crate::system::System;
pub use crate::tells::Tells;
pub use crate::texts::Texts;
pub use crate::unsent::Unsent;
