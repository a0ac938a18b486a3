//! Tests of files: the model, its sums, its changes as nodes, files in memory, pages and credits.
//!
//! They stand above the crates whose public calls they make, since a crate that has tests is proved twice: by itself, and with its tests.
#![tactic(auto)]

#[cfg(test)]
mod credit_pool_tests;
#[cfg(test)]
mod fs_model_tests;
#[cfg(test)]
mod group_nodes_tests;
#[cfg(test)]
mod page_cache_tests;
#[cfg(test)]
mod plain_backing_tests;
#[cfg(test)]
mod plain_backing_tree_tests;
#[cfg(test)]
mod space_sums_tests;
