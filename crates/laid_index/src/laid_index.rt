// An index that was laid.

use media_sys::Branch;

/// Where an index was laid: the branch to its root, with the key of the root's first child, the bytes that its nodes take of
/// each of its LEBs, each node rounded up to 8, and the next sequence number.
#[derive(Debug, Drop)]
pub struct LaidIndex {
    pub root: Branch,
    pub used: Vec<u32>,
    pub sqnum: u64,
}
