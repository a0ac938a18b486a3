//! Of which tree is an image in which the live nodes of a tree were laid?
#![tactic(auto)]

mod law;
mod leaves;

pub use crate::law::{live_nodes_are_laid_as_their_tree, nodes_in_order_are_apart};
pub use crate::leaves::{laid_leaves_are_in_order, laid_leaves_stand};
