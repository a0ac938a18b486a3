//! How does a tree of files become a whole image?
//!
//! [`finish_image`] lays the areas around leaves and an index that stand in the main LEBs: the tree of properties, the start of the log, both
//! masters, and last the superblock.
#![tactic(auto)]

mod areas;
mod filled_main;
mod finishing;
mod master;
mod properties;

pub use crate::filled_main::FilledMain;
pub use crate::finishing::finish_image;
