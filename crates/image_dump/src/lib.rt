//! Are these bytes an image of a volume, and what stands in each LEB of it?
//!
//! An image's superblock tells the shape of its volume; `specs/Opening.antt` says what is wrong with bytes that have no
//! such superblock, no whole LEBs, or more bytes than the volume, and in which order. `specs/Listing.antt` says what is
//! listed of a LEB: a word where it has properties or where nothing is written in it, and else its nodes, in the order in
//! which they stand, and how its text ends. A dump reads one LEB after another into one buffer, goes over its text once,
//! and appends a line for each node.
#![tactic(auto)]

mod fault;
mod law;
mod leb;
mod listing;
mod opening;

pub use crate::fault::ImageFault;
pub use crate::law::never_both;
pub use crate::listing::dump;
pub use crate::opening::{Opened, open_image};
