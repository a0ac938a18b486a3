//! Tests of bytes, nodes and the texts of LEBs.
//!
//! They stand above the crates whose public calls they make, since a crate that has tests is proved twice: by itself, and with its tests.
#![tactic(auto)]

#[cfg(test)]
mod index_tree_tests;
#[cfg(test)]
mod leb_scan_tests;
#[cfg(test)]
mod media_leaf_tests;
#[cfg(test)]
mod media_lpt_tests;
#[cfg(test)]
mod media_sys_tests;
#[cfg(test)]
mod ubifs_base_tests;
