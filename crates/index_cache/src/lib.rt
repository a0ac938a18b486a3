//! The index of a mounted volume: nodes in memory, each with its place on the volume while it is clean.
//!
//! A `PagedIndex` is a table of nodes and two roots: that of the index that is seen, and that of the one that a commit writes.
//! A mount takes up the root alone, without loading it. A change loads the nodes of its way, and adds nodes to the table. A commit gives the dirty
//! nodes of its index their places, and changes nothing else of them. Then clean nodes may be let go. `IsIndexOn` of node_cache says what has to
//! stand on a volume so that it can be taken up.
#![tactic(auto)]

mod buffer;
mod calls;
pub mod client;
mod commit;
mod counting;
mod evicting;
mod load;
mod paged;
mod reading;
pub mod worked;
mod writing;

pub use crate::buffer::NodeBuffer;
pub use crate::calls::Staged;
pub use crate::commit::DirtyNode;
pub use crate::paged::PagedIndex;
pub use crate::reading::read_root;
