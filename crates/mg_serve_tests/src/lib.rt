//! Tests of a running gateway, its journal and its reports through their public functions.
//!
//! Most of the tests take their events from `FakePorts`. They are not in `mg_tests`, so that the two crates can be
//! proved at the same time.
#![tactic(auto)]

#[cfg(test)]
mod cases;
#[cfg(test)]
mod clocks;
#[cfg(test)]
mod equality;
#[cfg(test)]
mod fences;
#[cfg(test)]
mod journaled;
#[cfg(test)]
mod loss;
#[cfg(test)]
mod metrics;
#[cfg(test)]
mod recorded;
#[cfg(test)]
mod renewals;
#[cfg(test)]
mod serve;
#[cfg(test)]
mod sessions;
#[cfg(test)]
mod watchers;
