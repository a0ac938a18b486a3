//! A commit of the index: what is frozen of it is written to free LEBs, and stands on the volume then.
//!
//! The dirty nodes go out one by one, children before their parent, a full node's room for each, into one LEB after another. A
//! LEB's nodes are laid into a buffer, and the LEB is replaced by one change. A node has its place once it is laid, so its parent
//! may follow in the same LEB. The invariant is that each clean node stands in the volume with the bytes that are laid so
//! far in place of the LEB that they are for. Where the volume doesn't fail, they are written, whatever else ends the call.
#![tactic(auto)]

pub mod client;
mod index_at;
mod index_fault;
mod laws;
mod laying;
mod root;
mod step;
mod writing;

pub use crate::index_at::{IndexAt, IndexHead, WrittenLeb};
pub use crate::index_fault::IndexFault;
pub use crate::laws::{
    a_leb_follows_those_before_it, changes_keep_keys_apart, changes_keep_what_stands,
    dirty_nodes_are_distinct, loaded_keys_are_in_order,
};
pub use crate::root::committed_root;
pub use crate::step::write_next_leb;
pub use crate::writing::write_index;
