// Branches of index nodes.

use ubifs_base::Key;

/// A child of an index node: the LEB, the offset and the length of the node that it points to, and
/// that node's key, or the least key below it (`struct ubifs_branch` of ubifs-media.h).
#[derive(Clone, Copy, Debug, PartialEq, Eq)]
pub struct Branch {
    pub lnum: u32,
    pub offs: u32,
    pub len: u32,
    pub key: Key,
}
