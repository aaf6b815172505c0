//! A gateway's numbered UDP sockets, and its journal.
//!
//! Socket 0 is the control socket, and socket s + 1 is the media socket of slot s in the pool.
//!
//! [`Ports`] has the calls that a gateway needs. They receive a datagram without blocking, send a datagram, and begin a
//! tick. They append a line to the journal, say whether to renew it, and renew it. They also count the failed receives
//! and sends. [`FakePorts`] provides in-memory ports for tests. These return the datagrams that they were given, make
//! chosen calls fail, and log each call.
//!
//! ```rust
//! let mut ports = FakePorts::new(alloc, waiting, failing);
//! let mut buffer = [0; 65535];
//! while let Some((n, source)) = ports.receive(0, &mut buffer)? {
//!     ports.send(0, source, &buffer[..n])?;
//! }
//! ```
//!
//! Contracts describe ports by the calls on them (`specs/Calls.antt`) and by the effects of these calls on the journal
//! (`specs/Journaled.antt`). Ports may log the calls in one list, which shows their order. The log has each receive
//! with its result, each send with its arguments, each beginning of a tick, and each append and renewal with its arguments
//! and result. Ports that use the operating system's sockets log nothing.
#![tactic(auto)]

mod arrival;
mod batch;
mod call;
mod failure_causes;
mod fake_ports;
mod log;
mod payload;
mod port_fault;
mod ports;
mod receipt;

pub use crate::arrival::Arrival;
pub use crate::batch::Batch;
pub use crate::call::Call;
pub use crate::failure_causes::FailureCauses;
pub use crate::fake_ports::FakePorts;
pub use crate::payload::Payload;
pub use crate::port_fault::PortFault;
pub use crate::ports::Ports;
pub use crate::receipt::Receipt;
pub use mg_clock::Timing;
pub use mg_journal::{AppendFault, Durability};
pub use mg_words::Peer;
