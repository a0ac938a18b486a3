//! Tests of what is free and who may take it.
//!
//! They stand above the crates whose public calls they make, since a crate that has tests is proved twice: by itself, and with its tests.
#![tactic(auto)]

#[cfg(test)]
mod image_space_tests;
#[cfg(test)]
mod lprops_tree_tests;
#[cfg(test)]
mod space_budget_tests;
