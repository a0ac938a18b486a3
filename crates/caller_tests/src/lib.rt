//! Tests of callers and workers at once, each in a thread of its own, over a backing in memory.
//!
//! They stand above the crates whose public calls they make, since a crate that has tests is proved twice: by itself, and with its tests.
#![tactic(auto)]

#[cfg(test)]
mod fixture;
#[cfg(test)]
mod gate_tests;
#[cfg(test)]
mod gates;
#[cfg(test)]
mod jobs;
#[cfg(test)]
mod phase_tests;
#[cfg(test)]
mod pool_tests;
