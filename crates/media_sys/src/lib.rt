//! Which bytes are a system node: the superblock, a master, a reference of the log, an index node, a
//! commit start, an orphan node or a padding node.
//!
//! Each node is a header and a body, and a body is a list of fields: numbers, lowest byte first, and
//! gaps that nobody looks at. `specs/` says for each kind which fields it has, what it may say, and a
//! test of a header's type and a body that holds exactly where they are such a node; `IsSystemNode`
//! joins the seven. A reader makes the test and then takes the fields from their places, so that
//! `is_system` is the tests alone and takes no memory. A node is written from its last field to its
//! first, so that what stands behind a field is already as it stays. What the fields mean, as a
//! geometry or a feature, is not judged here.
#![tactic(auto)]

mod branch;
mod commit_start;
mod feature;
mod idx_node;
mod laws;
mod master;
mod orph_node;
mod pad_node;
mod ref_node;
mod super_field;
mod super_node;
mod system;
mod zeros;

pub use crate::branch::Branch;
pub use crate::commit_start::CommitStart;
pub use crate::feature::Feature;
pub use crate::idx_node::IdxNode;
pub use crate::laws::{one_node, whole_node};
pub use crate::master::Master;
pub use crate::orph_node::OrphNode;
pub use crate::pad_node::PadNode;
pub use crate::ref_node::RefNode;
pub use crate::super_field::SuperField;
pub use crate::super_node::Super;
pub use crate::system::is_system;
