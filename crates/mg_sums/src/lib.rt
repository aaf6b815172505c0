//! The frames of a conference mixer, and one total for each room.
//!
//! Each termination has a [`Row`], numbered by its slot, and each context has a [`Room`]. A [`Sums`] keeps the frame of
//! each row and the room that the row is joined to, if any. A row is joined while its termination talks. For each room,
//! the [`Sums`] keeps the sum of the joined frames, sample by sample, as 160 numbers of 32 bits. These totals don't
//! need saturation: at most [`TERMINATION_LIMIT`] 16-bit samples are added.
//!
//! So a listener's mix doesn't need a sum over all talkers. It is the room's total minus the rows that the listener
//! must not hear: the listener's own row (the base) and the silenced rows. The mix is saturated once, to 16 bits.
//!
//! ```rust
//! let mut sums = Sums::new(alloc)?;
//! let (room, first, second) = (Room::new(0), Row::new(0), Row::new(1));
//! sums.join(room, first);
//! sums.join(room, second);
//! sums.set_frame(first, Some(&[32124; 160]));
//! sums.set_frame(second, Some(&[-100; 160]));
//! assert_eq!(rt; *sums.total(room, 0), 32024);
//! assert_eq!(rt; sums.mix(room, Some(second), &[]), [32124; 160]);
//! ```
//!
//! [`Sums::work`] counts how often a row is added or subtracted. Joining or leaving counts once, and setting the frame
//! of a joined row counts twice. A mix counts once, even without a base, and once more for each silenced row. Only the
//! module `rows` sees the fields of a row; other code reads frames and totals through [`Sums::frame`] and
//! [`Sums::total`].
//!
//! [`Sums::new`] allocates all memory; no other call allocates. `specs/Sums.antt` defines totals and mixes, and
//! [`theorems`] states the consequences. The vector code is in [`kernels`]; [`ranges`] supplies proofs with the ranges
//! that a kernel requires.
#![tactic(auto)]

pub mod kernels;
pub mod ranges;
mod room;
mod row;
mod rows;
mod sums;
pub mod theorems;

pub use mg_words::TERMINATION_LIMIT;
pub use room::Room;
pub use row::Row;
pub use sums::Sums;
