// A leaf of the committed index, as a mount reads it.

use index_tree::Leaf;
use journal_scan::JournalNode;

/// A leaf of the committed index, and what is told of the intact leaf node that stands at its place, if one does, whatever node
/// that is.
#[derive(Debug, Drop)]
pub struct CommittedLeaf {
    pub leaf: Leaf,
    pub found: Option<JournalNode>,
}
