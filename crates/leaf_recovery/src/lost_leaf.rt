// A committed leaf that isn't found.

use index_tree::Leaf;

// A leaf that isn't found: whether its node is there and names no inode, and whether the journal has that node's name.
#[derive(Clone, Copy)]
pub(crate) struct LostLeaf {
    pub(crate) leaf: Leaf,
    pub(crate) is_empty: bool,
    pub(crate) is_renamed: bool,
}
