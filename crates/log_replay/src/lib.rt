//! Which index does a mount recover, given the committed leaves and the nodes of the journal?
//!
//! The nodes are applied in order of number: each sets a leaf, takes one out, or takes out a range of keys, by one look-up
//! and one call of the index. An inode and a block are found by their key. A name is not, since two names may have one hash:
//! so beside the index stands a map from names to their leaves, and another from inodes to whether they have links, which
//! tells the orphans that go. The invariant is `Stands` of `specs/Standing.antt`: the index, and both maps, are those of one
//! list of leaves with their nodes; each node makes of it what `leaf_map` says.
#![tactic(auto)]

mod application;
mod candidate;
mod committed_leaf;
mod copies;
mod index_calls;
mod laws;
mod listed;
mod moving;
mod named;
mod nodes;
mod noting;
mod placing;
mod read_leaf;
mod reading;
mod recovery;
mod replayed;
mod settling;
mod spared;
mod standing;
pub mod thing;

pub use crate::committed_leaf::CommittedLeaf;
pub use crate::laws::{
    found_leaves_that_differ_are_of_an_index, journals_can_be_applied,
    what_fits_leaves_is_of_a_journal, what_was_read_has_the_numbers,
};
pub use crate::recovery::{replay, replay_nodes};
pub use crate::replayed::Replayed;
