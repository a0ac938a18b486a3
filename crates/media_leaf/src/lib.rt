//! Which bytes are a leaf of the index: an inode, a block of a file, an entry or a truncation.
//!
//! Each node is a header and a body, and a body is a list of fields with a tail of bytes behind it:
//! numbers, lowest byte first, and gaps that nobody looks at. `specs/` says for each kind which
//! fields it has and what it may say, and `IsLeafNode` joins the four. A node is written from its
//! last field to its first, so that what stands behind a field is already as it stays; it is read
//! field by field, and a body that breaks a rule is no node. Bytes are at most one node, and no
//! node's bytes begin another's.
#![tactic(auto)]

mod data_node;
mod dent_node;
mod ino_node;
mod laws;
mod leaf;
mod trun_node;

pub use crate::data_node::DataNode;
pub use crate::dent_node::DentNode;
pub use crate::ino_node::InoNode;
pub use crate::laws::{one_node, whole_node};
pub use crate::leaf::is_leaf;
pub use crate::trun_node::TrunNode;
