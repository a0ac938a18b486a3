//! Does the index of an image meet its rule, what does it say, and what is wrong with it first?
//!
//! The rule is `HasIndex` of crate sound_image: from the root on, which the master names, index nodes are intact, of their
//! level, within the fanout, in LEBs that are marked as the index's, with keys between those of branches. [`check_index`]
//! goes from the root down. The idea: a list of nodes that are wanted, the next one at its end. A node with which nothing is wrong is
//! taken off, and its children are put there in its place; its branch is told, and the leaves below it. Of the nodes that are wrong the
//! first is kept, and nothing below them is looked at. So whatever waits stands for all that is still to be seen, which is the invariant.
#![tactic(auto)]

mod check;
mod going_over;
mod index_found;
mod index_walk;
mod judging;
mod key_order;
mod misfits;
mod reading;
mod value_misfit;
mod wanted;

pub use crate::check::check_index;
pub use crate::index_found::IndexFound;
