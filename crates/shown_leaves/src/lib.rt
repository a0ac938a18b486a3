//! What do the leaves of a recovered index show, and which of them, and which of the collector's copies, aren't what they should be?
//!
//! Of the rule on the tree (`HasTree` of sound_image) these are the parts that need a node's whole content, which no index keeps. So
//! nodes are read again, each where it was found. A leaf that stands where its node was read takes one read and no checksum. One that
//! stands elsewhere, as at a copy, takes two, and node is compared with node, since ignored bytes of the medium may differ. A copy is compared
//! with the own nodes of those committed leaves alone that have its key. The idea: bytes are at most one node, so what is read at a
//! place is the node that stands there. The invariant of each walk: what was told so far is what holds of the leaves so far.
#![tactic(auto)]

mod copies;
mod laws;
mod leaves;
mod reading;
mod shown;
mod shown_leaves;
mod sourced_leaf;
mod standing;
mod standing_in;
mod stored_node;
mod twice;
mod unchanging;

pub use crate::copies::first_false_copy;
pub use crate::laws::wrong_nodes_are_of_two_kinds;
pub use crate::leaves::read_shown;
pub use crate::shown_leaves::ShownLeaves;
pub use crate::sourced_leaf::{KnownBlock, Source, SourcedLeaf};
pub use crate::twice::first_twice;
pub use crate::unchanging::first_unchanging;
