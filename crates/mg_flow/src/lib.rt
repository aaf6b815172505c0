//! Who hears whom in all rooms: each listener's open and silenced talkers.
//!
//! A gateway has [`CONTEXT_LIMIT`](mg_words::CONTEXT_LIMIT) rooms, one for each context. A member of a context has a
//! [`Place`]: the room and a seat in it. A [`FlowTable`] keeps a topology for each room. For each place it records
//! whether the member talks and whether it listens, according to its stream mode (RFC 3525, section 7.1.7). From these
//! it derives two sets of seats for each listener:
//!
//! - [`FlowTable::open`]: the members whose speech flows to the listener. Each of them talks, the listener listens, and
//!   the last word on the pair lets the speech through (RFC 3525, section 7.1.18).
//! - [`FlowTable::silenced`]: the room's talkers that the last word mutes for the listener.
//!
//! ```rust
//! let mut table = FlowTable::new(alloc)?;
//! let [first, second] = [Place { room: 0, seat: 0 }, Place { room: 0, seat: 1 }];
//! table.on_enter(first, true, true);
//! table.on_enter(second, true, true);
//! assert_eq!(rt; *table.open(second), 0b01);
//! table.on_triples(0, &[isolate])?;
//! assert_eq!(rt; *table.silenced(second), 0b01);
//! ```
//!
//! A table keeps no history. So its contracts hold for every list of edits that it represents, before and after a call
//! (`StandsFor` in `specs/aids/Table.antt`). `specs/Edits.antt` defines what a list of edits means, looking back from
//! the newest edit. [`theorems`] states the consequences. For a proof without such a list, the clauses `kept`, `place`,
//! `places`, `hears` and `others` say what is stored, what changes, and what is unchanged.
#![tactic(auto)]

mod flow_table;
mod last_word;
mod masks;
mod place;
mod room_flows;
pub mod theorems;

pub use flow_table::FlowTable;
pub use place::Place;
