// What an index that meets its rule says.

use index_tree::Leaf;
use media_sys::Branch;

/// The leaves of an index from left to right, and the branches to its nodes, each before those below it (`struct
/// ubifs_branch` of ubifs-media.h). The root's branch has the key of its first child.
#[derive(Debug, Drop)]
pub struct IndexFound {
    pub leaves: Vec<Leaf>,
    pub nodes: Vec<Branch>,
}
