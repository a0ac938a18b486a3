//! Which tree do the live nodes of a tree show, wherever they stand?
#![tactic(auto)]

mod law;

pub use crate::law::{a_stored_tree_is_the_same, live_nodes_show_their_tree};
