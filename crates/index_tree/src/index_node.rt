// A node of the index, as it is listed.

use crate::leaf::Leaf;

/// A node of the index: how far it stands above the lowest level, how many children it has, and on
/// the lowest level, 0, its leaves (`struct ubifs_idx_node` of ubifs-media.h).
#[derive(Debug, Drop)]
pub struct IndexNode {
    pub level: u16,
    pub count: u32,
    pub leaves: Vec<Leaf>,
}
