//! What do the nodes of a journal make of the leaves of an index, and which tree do leaves show?
//!
//! A leaf is kept with the node that stands at its place (`specs/Kept.antt`). A list of such leaves shows a tree
//! (`specs/Shown.antt`), and a node that is put sets a leaf, drops leaves or cuts them off (`specs/After.antt`). An inode
//! and a block are told by their key, an entry by its directory and name, since two names may have one hash. The idea:
//! what a change makes of the leaves is what it makes of the tree that they show, so that a store and a mount work on
//! places, and what is promised of them is said of files.
#![tactic(auto)]

mod law;
mod worked;

pub use crate::law::{
    a_change_of_leaves_is_one_of_the_tree, a_copy_changes_no_tree,
    a_mount_finds_what_a_cut_may_leave, bytes_of_leaves_add_up, copied_leaves_are_found,
    found_leaves_are_of_an_index, indexes_follow, leaves_stay_distinct,
    nodes_of_changes_carry_them, order_forgets_how_nodes_were_joined, originals_are_found,
    the_last_change_wins, what_loses_nothing_fits, what_makes_obsolete_touches,
};
pub use crate::worked::{
    collections_are_told, leaves_are_told, recovered_space_is_told, recovery_of_leaves_is_told,
};
