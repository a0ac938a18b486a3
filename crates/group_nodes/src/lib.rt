//! Which leaf nodes carry a group of changes, and which change a leaf node carries.
//!
//! Each change of a tree is one leaf node of the journal, and each leaf node carries one change, or none where it is of no
//! kind that the tree has. `specs/Nodes.antt` has this both ways; that the one undoes the other is proved for every
//! change that a node can carry, but that an inode without links is read as one that goes. A group is written node behind
//! node, with sequence numbers that rise by one, and its group types tell where it ends: `specs/Groups.antt` says which
//! bytes it has, and what stands in a LEB that has them. Nothing is copied to be written, since a node's data and name go
//! from the change into the bytes at once.
#![tactic(auto)]

mod encode;
mod kind;
mod laws;
mod node;
mod read;
mod write;

pub use crate::kind::{kind_of_mode, kind_of_type};
pub use crate::laws::{
    a_group_is_read_back, changes_are_carried, nodes_have_places, texts_have_length,
};
pub use crate::node::{key_of, node_len, text_len, write_text};
pub use crate::read::read_change;
pub use crate::write::{group_len, write_group};
