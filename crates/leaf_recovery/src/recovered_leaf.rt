// Leaves after recovery.

use index_tree::Leaf;
use journal_scan::NodeContent;

/// Where a node stands: its LEB, its offset in it and its length, in bytes.
#[derive(Clone, Copy, Debug, PartialEq, Eq)]
pub struct Place {
    pub lnum: u32,
    pub offs: u32,
    pub len: u32,
}

/// A leaf after recovery: what its node says, the node's sequence number, and where the node was read. A leaf that was committed
/// and whose node nobody can read says what stands for it, an inode without links or a block, and has number 0 and no source.
#[derive(Debug, Drop)]
pub struct RecoveredLeaf {
    pub leaf: Leaf,
    pub content: NodeContent,
    pub sqnum: u64,
    pub source: Option<Place>,
}

/// What recovery makes of what a mount has read: the leaves after it; the committed leaves of names of which neither the node nor a
/// copy can be read, if the journal has no other name left for them; those whose node is there and names no inode, if the journal
/// hasn't that name; and, of the leaves that are found before any node is applied, those that show the inode, block or name of one
/// before them.
#[derive(Debug, Drop)]
pub struct RecoveredLeaves {
    pub kept: Vec<RecoveredLeaf>,
    pub missing: Vec<Leaf>,
    pub empty: Vec<Leaf>,
    pub repeated: Vec<RecoveredLeaf>,
}
