//! What space does an image of a tree take, and is there room?
//!
//! [`count_leaves`] counts the leaves of a tree and the LEBs that they take, as the maker of images lays them. [`tree_room`] makes of
//! them the two sides of the test that admission makes.
#![tactic(auto)]

mod counting;
mod law;
mod node_lens;
mod rooms;
mod tally;

pub use crate::counting::{LeafCount, count_leaves};
pub use crate::law::an_admitted_tree_has_room;
pub use crate::rooms::tree_room;
