// An index on the way to the recovered one.

use fs_model::OrderedName;
use index_tree::{Index, Leaf};
use std::collections::BTreeMap;

// An index, and what its leaves show: of each inode whether it has links, and of each name its leaf.
#[derive(Drop)]
pub(crate) struct Standing {
    pub(crate) index: Index,
    pub(crate) inodes: BTreeMap<u32, bool>,
    pub(crate) names: BTreeMap<(u32, OrderedName), Leaf>,
}
