//! The state of a conference gateway, changed by edits, media and ticks.
//!
//! [`Engine::new`] allocates all memory. Commands arrive as calls, or as [`Edit`]s. Each command is either applied, or
//! refused with an [`ErrorNumber`](mg_rooms::ErrorNumber), in which case nothing changes:
//!
//! ```rust
//! let mut engine = Engine::new(alloc, Config::default())?;
//! let done = engine.add(Target::New, &Settings::default())?;
//! assert_eq!(rt; engine.rooms().members(done.context), [done.number].as_slice());
//! ```
//!
//! The cost of a tick grows with the number of terminations, of packets, and of pairs that the topology silences. It
//! doesn't grow with the number of pairs that hear each other. The engine keeps the frame of each termination and a
//! total for each context, in [`Sums`]. It counts each row of 160 samples that is added to a total or subtracted from
//! one ([`Engine::work`]). A mix counts as at least one row.
//!
//! In a tick, each termination's frame costs at most two rows. If a termination talks, its old frame is subtracted from
//! the total, and its new frame is added, unless both are known to be silent. A packet whose payload is not shared
//! costs one row (the total without the listener itself), plus one for each talker that the topology silences for the
//! listener. In Loopback a termination is sent its own frame, which doesn't cost any rows. Two listeners in a context
//! share a payload if they hear the same talkers and use the same law. The payload must be among the context's newest
//! eight. `specs/Work.antt` has the proved bound for a tick. An edit costs at most four rows, and an RTP datagram costs
//! none.
//!
//! [`Engine::skip`] runs many ticks without packets. Once all play lists are idle and all frames silent, the remaining
//! ticks take one step. The cost of that step grows only with the number of terminations.
//!
//! A new engine can be filled with the terminations of another one, using [`Engine::skip_to`], [`Engine::restore`] and
//! [`Engine::set_word`]. It then has everything that the other one had, except for the speech that was received
//! (`without_speech` in `specs/Restored.antt`). [`theorems::quiet_engines_represent`] states the conditions.
//!
//! The engine keeps no history, so one state may represent several gateways. Its contracts hold for every `Gateway`
//! (`specs/Gateway.antt`) that the state represents, before and after a call (`StandsFor` in `specs/aids/Stands.antt`).
#![tactic(auto)]

mod arrival;
mod config;
mod datagram;
mod done;
mod edit;
mod engine;
mod fault;
mod joining;
mod media;
mod membership;
mod mixing;
mod restoring;
mod room_shares;
mod seated_member;
mod seating;
mod sending;
mod sent_media;
mod share;
mod shares;
mod skipping;
mod taken;
pub mod theorems;
mod topology_triple;
mod triple_term;
mod triples;

pub use crate::config::Config;
pub use crate::datagram::{Datagram, Outbox};
pub use crate::done::Done;
pub use crate::edit::Edit;
pub use crate::engine::Engine;
pub use crate::fault::StartFault;
pub use crate::seated_member::SeatedMember;
pub use crate::sent_media::SentMedia;
pub use crate::taken::{DropCause, Taken};
pub use crate::topology_triple::{FEW_TRIPLES, TRIPLES, TopologyTriple, TopologyTriples};
pub use crate::triple_term::TripleTerm;
pub use mg_rooms::{ErrorNumber, MediaSetting, Mode, Record, Rooms, Settings, Target};
pub use mg_sums::{Room, Row};
pub use mg_words::{Association, Peer, Stats};
