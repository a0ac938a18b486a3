//! What does an operation answer, or which changes would it make, over a backing with dirty pages in front of it? Each
//! function walks and looks up what its operation's definition speaks of, and answers as that says, or that the backing
//! failed; nothing is changed. The idea: a definition of fs_model is a chain of refusals with a plan at its end, and the
//! body goes along it, one look-up for each thing that the definition names. What is looked up are the present files.
#![tactic(auto)]

mod attributes;
mod faults;
mod groups;
mod kinds;
mod links;
mod lookups;
mod makes;
mod moves;
mod opens;
mod place;
mod stats;
mod walks;

pub use crate::attributes::{found, link_read, listed, mode_set};
pub use crate::faults::or_fault;
pub use crate::groups::plan;
pub use crate::links::{dir_removed, linked, unlinked};
pub use crate::lookups::{entries, entry, inode};
pub use crate::makes::{created, dir_made, made, symlink_made};
pub use crate::moves::renamed;
pub use crate::opens::opened;
pub use crate::stats::told;
pub use crate::walks::{parent_of, walk, walked};
