// What is answered of a tree that was laid.

use index_tree::Leaf;

/// The leaves of a tree that was laid, in order, each with its place. Then the bytes that nodes take of each LEB from the first main
/// LEB on, without what fills the last unit, and the sequence number of the next node.
#[derive(Debug, Drop)]
pub struct LaidLeaves {
    pub leaves: Vec<Leaf>,
    pub used: Vec<u32>,
    pub sqnum: u64,
}
