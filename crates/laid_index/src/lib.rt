//! How does the index of given leaves get onto a volume at once?
//!
//! Level by level from the lowest on, each node full but for the last of its level, and children before their parent. Nodes go into a buffer as long
//! as a LEB, one behind another at multiples of 8, while they fit; then one change writes the LEB, with a gap up to the unit. So how many LEBs an
//! index takes depends on the number of its leaves alone. While nodes are laid, a row stands in all contents that go on from what is laid: the
//! closed LEBs as they are, and the open one from the buffer's bytes on (`GoesOn` of specs/Opened.antt).
#![tactic(auto)]

mod laid_index;
mod law;
mod laying;
mod open_leb;
mod packing;

pub use laid_index::LaidIndex;
pub use law::an_index_takes_few_lebs;
pub use laying::lay_index;
pub use packing::index_lebs;
