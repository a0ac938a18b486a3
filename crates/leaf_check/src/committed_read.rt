// What is read of committed leaves.

use index_tree::Leaf;
use log_replay::CommittedLeaf;

/// Committed leaves in order, each with what is told of the intact leaf node that stands at its place; and, in order of LEB, offset and
/// length, those whose place has an intact node of their key and length, which needs no feature that isn't known here.
#[derive(Drop)]
pub struct CommittedRead {
    pub leaves: Vec<CommittedLeaf>,
    pub intact: Vec<Leaf>,
}
