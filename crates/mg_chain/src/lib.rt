//! Lines in a text that contain a hash of the text before them: a chain of hashes.
//!
//! A seal is a comment: `# sha256` and a SHA-256 (FIPS 180-4) in hexadecimal digits. It hashes the text before the
//! seal, starting at the previous seal's line or, for the first seal, at the beginning. So a seal depends on everything
//! before it.
//!
//! A text can follow another one. Then a line in it has the hash that the next seal of the other text would have:
//! `# follows` and the digits. So the chain goes on from text to text.
//!
//! [`Chain`] makes seals while a text is written. [`read_seals`] reads a text, and finds the first invalid seal.
//!
//! ```rust
//! let mut chain = Chain::new();
//! chain.add(b"tick\n");
//! text.write_all(MARK)?;
//! text.write_all(&chain.seal_end())?;
//! ```
//!
//! `specs/Seals.antt` defines seals, and how valid and invalid seals are counted.
#![tactic(auto)]

mod chain;
mod check;
mod linked;
mod part;
mod reading;
mod seals;

pub use crate::chain::{Chain, END, FOLLOWS, MARK};
pub use crate::linked::Linked;
pub use crate::part::mark_start;
pub use crate::reading::{read_linked, read_seals};
pub use crate::seals::Seals;
