//! How does a blank volume become a new file system?
//!
//! [`format`] lays the inode of the root directory and an index of it into the first two main LEBs, then the tree of properties, the start
//! of the log, both masters, and last the superblock. The volume is a sound image then. [`write_superblock`] and [`start_log`] serve whoever
//! lays more: each node stands alone in its LEB, which one change writes, so that a power cut leaves what was there or the node.
#![tactic(auto)]

mod formatting;
mod index;
mod laying;
mod log_start;
mod master;
mod properties;
mod root;
mod superblock;

pub use crate::formatting::format;
pub use crate::laying::in_units;
pub use crate::log_start::start_log;
pub use crate::superblock::{new_superblock, write_superblock};
