//! The library behind `mg_pace`, which writes `poll` and `tick` lines when the clock says that they are due.
//!
//! [`program`] reads the arguments and runs [`pace`], which reads the clock and writes the lines. [`Schedule`] counts
//! the lines that are due. [`theorems`] states properties of every run: no tick is early, and no tick is lost
//! unnoticed.
#![tactic(auto)]

mod entry;
mod fault;
mod lines;
mod options;
mod pacer;
mod schedule;
mod status;
pub mod theorems;

pub use crate::entry::program;
pub use crate::fault::PaceFault;
pub use crate::options::Options;
pub use crate::pacer::pace;
pub use crate::schedule::Schedule;
