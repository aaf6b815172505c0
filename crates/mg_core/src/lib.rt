//! The core of a conference media gateway: a state machine without I/O.
//!
//! Control datagrams, RTP datagrams and ticks go in; answers and packets come out. The commands of a controller act on
//! the terminations and contexts of an [`Engine`](mg_engine::Engine).
//!
//! ```rust
//! let mut core = Core::new(alloc, Config::default())?;
//! if core.control(alloc, source, datagram)? == Answer::Send {
//!     send(source, core.answer());
//! }
//! ```
//!
//! [`run`] handles each line of a script in this way. A core's state represents worlds (`StandsFor` in
//! `specs/aids/Stands.antt`), and each event is one `Step` in such a world (`specs/Step.antt`). The contracts prove
//! that after any list of events, the core's flows, totals and packets equal those recomputed from scratch
//! (`specs/Headline.antt`). While the reply to a request is kept, a retransmission of the request gets this reply, and
//! is not run (`specs/Retransmissions.antt`).
#![tactic(auto)]

mod answer;
mod answering;
mod changes;
mod counted;
mod counts;
mod event;
mod event_line;
mod fault;
mod follower;
mod line_resumer;
mod line_runner;
mod listener;
mod listeners;
mod machine;
mod output;
mod oversized;
mod parsed;
mod peer;
mod resumer;
mod resuming;
mod running;
mod script;
mod script_runner;
mod shown;
mod state;
mod stopped;
pub mod theorems;
mod watched;
mod watcher;
mod watching;

pub use crate::answer::Answer;
pub use crate::counted::{TicksLine, count_of, ticks_line};
pub use crate::counts::{Counts, DROP_CAUSES};
pub use crate::event::Event;
pub use crate::event_line::EventLine;
pub use crate::fault::{NoMemory, RunFault};
pub use crate::follower::Follower;
pub use crate::machine::{ANSWER_LIMIT, Core};
pub use crate::oversized::is_oversized;
pub use crate::parsed::Parsed;
pub use crate::peer::peer_of;
pub use crate::resuming::{resume, resume_from};
pub use crate::running::{run, run_from};
pub use crate::script::DATAGRAM_LIMIT;
pub use crate::shown::Shown;
pub use crate::stopped::Stopped;
pub use crate::watcher::Watcher;
pub use crate::watching::{watch, watch_from};
// Contracts in other crates can name a core only if the type of the core's state is exported.
#[doc(hidden)]
pub use crate::state::CoreState;
pub use mg_engine::{Config, Datagram, Peer, Record, StartFault, Taken};
pub use mg_rooms::TERMINATION_LIMIT;
