// A leaf, and where its node was read.

use index_tree::Leaf;

/// Where a leaf node was read: the LEB, the offset in it and the length, in bytes.
#[derive(Clone, Copy, Debug, PartialEq, Eq)]
pub struct Source {
    pub lnum: u32,
    pub offs: u32,
    pub len: u32,
}

/// A block of a file: the inode's number and its own.
#[derive(Clone, Copy, Debug, PartialEq, Eq)]
pub struct KnownBlock {
    pub ino: u32,
    pub number: u32,
}

/// A leaf of the recovered index, and where its node was read. Without a source nobody can read the node: of an inode one without
/// links stands in for it, and of a block one without bytes. `block` is the block that its node is, if it is known to be one.
#[derive(Clone, Copy, Debug, PartialEq, Eq)]
pub struct SourcedLeaf {
    pub leaf: Leaf,
    pub source: Option<Source>,
    pub block: Option<KnownBlock>,
}
