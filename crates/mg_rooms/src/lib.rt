//! The terminations and contexts of a gateway, and commands on them.
//!
//! See RFC 3525, section 6.
//!
//! [`Rooms`] stores terminations by slot and contexts by room. A slot belongs to a termination and its media port, a
//! room to a context, and a seat to a member of a context. Slots, rooms and seats are small numbers that are reused, so
//! that the crates above can use fixed-size tables. Termination and context numbers only go up, and none is used twice.
//!
//! Each command names the action's context as a [`Target`] and, except for an Add, a termination by its number. Either
//! the command succeeds, or the first check that fails refuses it and nothing changes:
//!
//! ```rust
//! let mut rooms = Rooms::new(alloc, limits)?;
//! let made = rooms.add(Target::New, &Settings::default())?.record;
//! assert_eq!(rt; rooms.members(made.context), [made.number].as_slice());
//! assert_eq!(rt; rooms.subtract(Target::Null, made.number), Err(ErrorNumber::NotInContext));
//! ```
//!
//! [`Rooms::skip_to`] and [`Rooms::restore`] fill new rooms with the terminations and contexts that a gateway had before
//! it was restarted. Their numbers, slots, seats and rooms are kept.
//!
//! [`Rooms::new`] allocates all memory; no other call allocates.
//!
//! In contracts, a [`Rooms`] appears as a registry: the terminations and contexts in numerical order
//! (`specs/Registry.antt`). The contract of each command states its outcome on that registry (`specs/Outcome.antt`). It
//! also states that the new registry is consistent (`specs/Consistent.antt`), and what the command leaves unchanged
//! (`specs/aids/Lasting.antt`). Each command returns the termination, together with the room of its context; a Move
//! returns both as they were before and after it. [`theorems`] states when a resource is exhausted.
#![tactic(auto)]

mod changes;
mod checks;
mod context;
mod entries;
mod hints;
mod limits;
mod media_setting;
mod member;
mod members;
mod moved;
mod order;
mod outcomes;
mod place;
mod record;
mod restoring;
mod rooms;
mod settings;
mod tables;
mod target;
pub mod theorems;

pub use crate::settings::{Settings, depth_within};
pub use limits::Limits;
pub use media_setting::MediaSetting;
pub use member::Member;
pub use mg_words::{
    ErrorNumber, LAST_CONTEXT, MEMBER_LIMIT, Mode, TERMINATION_LIMIT, mode_listens, mode_talks,
};
pub use moved::Moved;
pub use record::Record;
pub use rooms::Rooms;
pub use target::Target;
// Contracts in other crates can name terminations and contexts only if the types of their fields are exported.
#[doc(hidden)]
pub use context::Context;
#[doc(hidden)]
pub use hints::Hints;
#[doc(hidden)]
pub use members::Members;
#[doc(hidden)]
pub use tables::Tables;
