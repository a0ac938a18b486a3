//! The plain backing: files in memory, which answer as a store does. `Tree` is a tree of files, of which a group of
//! changes is made wholly or not at all, whichever growth is refused: first each key that is set gets a cell, empty where
//! it is new, and all values are copied; then the cells change, which wants no memory; then those that are left empty are
//! swept. What is seen are the cells that hold a value. `PlainBacking` has a tree and the numbers of a store, and meets
//! `Backing` with them; what is written against a backing is tried over it.
#![tactic(auto)]

mod backing;
mod block_walk;
mod cell;
mod full_index;
mod node_bytes;
mod numbers;
mod rounds;
mod steps;
mod story;
mod tree;
mod tree_cells;
mod tree_law;
mod tree_reads;
mod tree_rows;

pub use crate::backing::PlainBacking;
pub use crate::full_index::full_index_weight;
pub use crate::tree::Tree;
pub use crate::tree_law::last_blocks_are_greatest;
pub use crate::tree_rows::{BlockRows, InodeRows};
