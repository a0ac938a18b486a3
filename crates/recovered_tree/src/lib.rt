//! Which files does a sound image hold?
//!
//! [`read_tree_of`] makes the whole check of crate sound_check, and then reads the node of each recovered leaf once more: an index keeps no
//! owners, times, targets or bytes. What the nodes show is made a `Tree` of crate plain_backing, change by change. The idea: in a sound
//! image each leaf shows what stands at its place, and no two show the same. So the changes that set what leaves show, from the last leaf
//! to the first and inodes before all else, make the tree of which a mount makes its files. The invariant of the walk over
//! leaves: what was kept so far, and what the rest of them sets, is what all of them set.
#![tactic(auto)]

mod highest;
mod laws;
mod leaf_sets;
mod node_shown;
mod reading;
mod recovered_files;
mod tree_made;

pub use crate::laws::{one_tree_is_read, the_files_of_an_image_are_proper};
pub use crate::reading::read_tree_of;
pub use crate::recovered_files::RecoveredFiles;
pub use sound_check::{Sound, check, summary_of};
