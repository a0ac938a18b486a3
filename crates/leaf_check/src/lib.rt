//! Do the leaves of an image's index meet their rule, and what stands at the places of the committed ones?
//!
//! [`read_committed`] tells of each leaf the intact leaf node that stands at its place with its length. [`check_leaves`] tests the rule
//! `HasLeaves` of crate sound_image on lists: the leaves after recovery, and those that nobody can read. The idea: in order of LEB, offset and
//! length, a leaf that overlaps any other overlaps a neighbour, or one that stands before it and is wrong as well. So one pass over
//! the leaves in this order finds all that are wrong at the first place at which one is (`specs/Sweep.antt`). What stands there is read once.
#![tactic(auto)]

mod answers;
mod check;
mod committed;
mod committed_read;
mod first;
mod keys;
mod known;
mod leaf_answer;
mod leaf_bytes;
mod nodes;
mod order;
mod reading;
mod sound;
mod standing;
mod sweep;
mod touching;

pub use crate::check::check_leaves;
pub use crate::committed::read_committed;
pub use crate::committed_read::CommittedRead;
