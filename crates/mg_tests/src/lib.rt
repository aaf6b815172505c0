//! Tests of the larger crates through their public functions.
//!
//! A crate with tests is proved twice, which takes long if the crate is large. So these tests are in a separate crate.
//! Scripts and programs test everything that they can show (`examples`, `.ci/tests`). These tests cover the rest:
//! counts, readers and writers that fail, and each public call of a lower crate once.
#![tactic(auto)]

#[cfg(test)]
mod checkpoints;
#[cfg(test)]
mod dates;
#[cfg(test)]
mod engine;
#[cfg(test)]
mod equality;
#[cfg(test)]
mod machine;
#[cfg(test)]
mod recording;
#[cfg(test)]
mod reply;
#[cfg(test)]
mod restoring;
#[cfg(test)]
mod rooms;
#[cfg(test)]
mod scripts;
#[cfg(test)]
mod sdp;
#[cfg(test)]
mod text;
