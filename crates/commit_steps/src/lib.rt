//! A commit of the index in steps: one LEB a step, and other work between.
//!
//! Between two steps a store goes on: changes of the index add nodes and leave what is frozen, and other LEBs are written. `IsCommitUnderWay` says
//! what holds all along. It speaks of the volume, of the index in memory, of the LEBs that were kept when the commit began, and of those given since.
//! Each clean node stands in one of these, and a cut leaves of them what they hold. A step adds a LEB, other work beside these LEBs keeps it, and
//! once no node is dirty the frozen index stands on the volume. The index before stands all along.
#![tactic(auto)]

mod client;

pub use crate::client::{commit_beside_puts, load_and_commit};
