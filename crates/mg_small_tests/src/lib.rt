//! Tests of the smaller libraries through their public functions.
//!
//! Like the tests in `mg_tests`, these are in a separate crate, because a crate with tests is proved twice. They test
//! behavior that no contract states, and call the public functions with a few arguments.
#![tactic(auto)]

#[cfg(test)]
mod clock;
#[cfg(test)]
mod equality;
#[cfg(test)]
mod failure;
#[cfg(test)]
mod flow;
#[cfg(test)]
mod g711;
#[cfg(test)]
mod journal;
#[cfg(test)]
mod kept;
#[cfg(test)]
mod lines;
#[cfg(test)]
mod outlet;
#[cfg(test)]
mod pace;
#[cfg(test)]
mod playout;
#[cfg(test)]
mod ports;
#[cfg(test)]
mod rtp;
#[cfg(test)]
mod scan;
#[cfg(test)]
mod sums;
#[cfg(test)]
mod topology;
#[cfg(test)]
mod words;
