//! Images of a tree of files: the leaf nodes of a tree, laid into the main LEBs of a fresh volume.
//!
//! The nodes go out inode by inode, each with its blocks and the entries in it behind it, with rising sequence numbers,
//! and a LEB takes nodes while they fit. `specs/Image.antt` says which bytes the volume holds then. How many LEBs that takes
//! is known before, from the lengths of the nodes alone (`specs/Packed.antt`), and one LEB is left at least. A tree whose bytes are those that are
//! for leaves has so many: a LEB that is closed took more bytes than it has beside its reserve.
#![tactic(auto)]

mod laid_leaves;
mod law;
mod layout;
mod open_leb;
mod tree_leaves;

pub use crate::laid_leaves::LaidLeaves;
pub use crate::law::leaves_of_a_tree_are_few;
pub use crate::layout::lay_tree;
