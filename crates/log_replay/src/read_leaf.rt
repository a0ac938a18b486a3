// A committed leaf as it was read.

use crate::application::Place;
use index_tree::Leaf;
use journal_scan::JournalNode;

// A leaf, whether it has a node of its own, and the node that is told of it: its own, its copy, or what stands for one that
// nobody can read. A name that nobody can read has none. `copy` is where a copy of that node stands.
#[derive(Drop)]
pub(crate) struct ReadLeaf {
    pub(crate) leaf: Leaf,
    pub(crate) is_own: bool,
    pub(crate) node: Option<JournalNode>,
    pub(crate) copy: Option<Place>,
}
