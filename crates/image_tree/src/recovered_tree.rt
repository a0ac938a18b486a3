// What was read and recovered, before it is tested.

use crate::tree_read::TreeRead;
use index_tree::Leaf;

// What was read and recovered of a tree, and committed leaves whose place has an intact node of their key and length, which needs no
// feature that isn't known here.
#[derive(Drop)]
pub(crate) struct RecoveredTree {
    pub(crate) read: TreeRead,
    pub(crate) intact: Vec<Leaf>,
}
