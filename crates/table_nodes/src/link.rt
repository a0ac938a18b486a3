// What a node leads to.

use index_tree::Leaf;
use ubifs_base::Key;

/// A child of a node: a leaf, or the node of this number, with a key that isn't above any key below it
/// (`struct ubifs_branch` of ubifs-media.h).
#[derive(Clone, Copy, Debug, PartialEq, Eq)]
pub enum Link {
    ToLeaf(Leaf),
    ToNode { key: Key, number: u64 },
}
