// What a mount recovers.

use index_tree::Index;
use leb_scan::Tail;

/// The recovered index; how many nodes were applied of the heads base and data; the greatest inode number in the keys of the
/// committed index and of these nodes, or 0; the greatest sequence number of all nodes of the texts, or 0; and how each text ends,
/// in order of the log.
#[derive(Drop)]
pub struct Replayed {
    pub index: Index,
    pub nodes: u64,
    pub highest: u32,
    pub sqnum: u64,
    pub tails: Vec<Tail>,
}
