//! What does a mount make of committed leaves and of a journal, whatever nodes they are?
//!
//! Each committed leaf is found at its own node or at a copy, the nodes of the journal are applied in order of number, listed
//! orphans go, and leaves of collected LEBs stand at their copies. The idea: what is told of nodes is all that the definitions of
//! `leaf_map` ask of them, so each definition stands here once more, of what is told (`specs/`), and the code follows it line by
//! line. So nothing is asked of order, distinctness or copies, and the answer is exact for damaged images too. Where the leaves that
//! are found stand in the order of their keys, what a node touches stands at few places, so leaves go to a map by those, and a node
//! takes look-ups. Else, and for a few nodes, each passes over all leaves; where there is none, one walk over the leaves is all.
#![tactic(auto)]

mod after_nodes;
mod applied;
mod copies;
mod found;
mod key_order;
mod lost;
mod lost_leaf;
mod moved;
mod named;
mod orphans;
mod ranked;
mod recovered_leaf;
mod recovery;
mod repeated;
mod seen;
mod thing;

pub use crate::recovered_leaf::{Place, RecoveredLeaf, RecoveredLeaves};
pub use crate::recovery::recover;
