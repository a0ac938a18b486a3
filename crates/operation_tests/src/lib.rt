//! Tests of operations on files: their plans, and what they answer and leave over a backing in memory.
//!
//! They stand above the crates whose public calls they make, since a crate that has tests is proved twice: by itself, and with its tests.
#![tactic(auto)]

#[cfg(test)]
mod op_groups_tests;
#[cfg(test)]
mod plain_backing_cut_tests;
#[cfg(test)]
mod vfs_ops_fs_tests;
#[cfg(test)]
mod vfs_ops_page_tests;
#[cfg(test)]
mod vfs_ops_tests;
