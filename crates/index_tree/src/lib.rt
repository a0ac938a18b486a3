//! The index: an ordered list of leaves in the shape of a tree. It answers where a leaf of a key
//! stands, and how many nodes the tree would take on the medium.
//!
//! The children of a node stand side by side: its leaves on the lowest level, its nodes above, each with the key of
//! its first leaf, so that a call goes down one path and reads few lines of memory on it. Where there are more than a
//! few children, a bisection passes over most of them (`src/bisect.rt`). `specs/Tree.antt` sees a
//! node as its shape. `specs/Shape.antt` says what such a shape is, what it contains and what an insertion makes of
//! it, `specs/Removal.antt` what a removal does, and `specs/Listing.antt` in which order the nodes are listed. The
//! invariant: each node has 1 to `fanout` children and keeps the key of its first leaf; all leaves stand at one depth
//! and in the order of their keys; the kept numbers are those of the shape. An insertion takes all memory that it may
//! need on its way down, and changes the tree on its way back, so that after `Memory` all is as before. What the
//! changes keep of any such tree, and of any such list of leaves, are the laws of `src/laws.rt`.
#![tactic(auto)]

mod after;
mod bisect;
mod counts;
mod find;
mod index;
mod index_node;
mod insertion;
mod last;
mod laws;
mod leaf;
mod listing;
mod node;
mod range_removal;
mod rank;
mod rebuild;
mod removal;
mod replacement;

pub use crate::index::Index;
pub use crate::index_node::IndexNode;
pub use crate::laws::{changed_indexes, distinct_leaves};
pub use crate::leaf::Leaf;
