//! The index of a mounted volume, as one value: looked up, changed and committed.
//!
//! A mount takes it up by the branch of its root, and reads nothing. While nothing changes it is on the volume alone, with at most 256 of
//! its nodes in memory. Changes load the nodes on their ways, and a commit writes what changed and lets nodes go. `specs/Shown.antt` says which
//! index is shown, over a volume and from memory, and no clause says how much of it a change loads.
#![tactic(auto)]

mod changes;
pub mod client;
mod commit;
mod counts;
mod lookups;
mod mounted;
mod steps;

pub use crate::counts::IndexSize;
pub use crate::mounted::MountedIndex;
