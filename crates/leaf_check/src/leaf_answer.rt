// What is told of a leaf.

use log_replay::CommittedLeaf;

// What is told of the intact leaf node that stands at a leaf's place, and whether that is the node of the leaf's key and needs no feature
// that isn't known here.
#[derive(Drop)]
pub(crate) struct LeafAnswer {
    pub(crate) told: CommittedLeaf,
    pub(crate) intact: bool,
}
