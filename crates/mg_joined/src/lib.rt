//! Several journals that follow one another, read as one script.
//!
//! A journal that was renewed says which journal it follows: behind a title and a checkpoint, it has a line `# follows`
//! with the hash of the other journal's last part. [`Joined`] reads such files, oldest first, as one script: the first
//! file, and of each further file the lines behind its line `# follows`.
//!
//! ```rust
//! let mut joined = Joined::new(alloc, files)?;
//! ```
//!
//! At the end of a file, `Joined` compares the hash of what it has read with the next file's line. If they differ, the
//! read fails. So after a script was read to its end, each file follows the one before it (`specs/Joined.antt`).
#![tactic(auto)]

mod fault;
mod joined;
mod later;
mod source;
mod texts_key;

pub use crate::fault::JoinFault;
pub use crate::joined::Joined;
pub use crate::texts_key::TextsKey;
