//! Tests of what a journal's texts say, and of what a mount makes of them.
//!
//! They stand above the crates whose public calls they make, since a crate that has tests is proved twice: by itself, and with its tests.
#![tactic(auto)]

#[cfg(test)]
mod journal_scan_tests;
#[cfg(test)]
mod log_replay_tests;
#[cfg(test)]
mod recovery_cases;
#[cfg(test)]
mod recovery_tests;
#[cfg(test)]
mod replay_tests;
#[cfg(test)]
mod samples;
#[cfg(test)]
mod texts;
