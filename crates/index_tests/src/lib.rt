//! Tests of an index that is taken up, changed and committed, over a volume in memory.
//!
//! They stand above the crates whose public calls they make, since a crate that has tests is proved twice: by itself, and with its tests.
#![tactic(auto)]

#[cfg(test)]
mod commit_step_tests;
#[cfg(test)]
mod mounted_index_tests;
