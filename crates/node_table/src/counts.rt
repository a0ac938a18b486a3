// The numbers of a node's tree.

/// The numbers of a tree, its topmost node included: its nodes, and its weight, which is the nodes plus the full ones.
#[derive(Clone, Copy, Debug, PartialEq, Eq)]
pub struct TreeCounts {
    pub nodes: u64,
    pub weight: u64,
}
