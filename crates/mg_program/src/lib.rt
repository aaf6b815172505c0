//! The library behind `mg_bridge`: a conference media gateway that runs a script or uses UDP sockets.
//!
//! [`program`] runs the whole program, from the command-line arguments to the exit status:
//!
//! ```rust
//! let words = ["replay", "--slots", "4"];
//! let system = System { alloc: rt.alloc(), net: &rt, clock: &rt, random: &rt, files: &rt };
//! let outside = Outside { host, input, output, errors, reports };
//! let ended = program::<Plain, _>(&system, outside, &words);
//! ```
//!
//! A gateway's sockets are those of the host ([`mg_host::Sockets`]), which are bound at startup. `GatewayPorts` lends
//! these sockets to a session (`mg_serve`). It sends no packet in a late tick, and no packet to an address that no
//! caller can have. It receives from a socket only if a datagram may be waiting there. `specs/Decisions.antt` defines
//! these decisions.
//!
//! `specs/Program.antt` defines the effect of a run. `mg_arguments` defines what the arguments request, and `mg_start`
//! defines how a gateway starts.
#![tactic(auto)]

mod announcement;
mod bind_fault;
mod binding;
mod check;
mod ended;
mod entry;
mod gateway_ports;
mod live;
mod log_key;
mod metrics_file;
mod ready;
mod receiving;
mod renewals;
mod replay;
mod send_fault;
mod sending;
mod serve;
mod status;
mod verify;

pub use crate::ended::Ended;
pub use crate::entry::program;
pub use crate::receiving::SOCKETS;
pub use mg_hearing::Ahead;
