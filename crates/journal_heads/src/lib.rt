//! Where do the groups of the journal go? To one of three heads, each of which writes its LEB from the start on: the
//! collector's takes what it moves, the base takes the nodes that aren't data, and the third takes data.
//!
//! Each head is a buffer in front of a LEB of its own (`specs/Heads.antt`), so what was put on it is the text of that buffer.
//! A put adds its nodes to the text of its head and leaves those of the others. After a sync a cut leaves the text of the
//! head and unwritten bytes; at any moment it leaves, of each head, what is written in front of its place. So of each head a
//! cut leaves a first part of what was put, with all that was synced in it.
#![tactic(auto)]

mod heads;
mod place;

pub use crate::heads::Heads;
pub use crate::place::Place;
