// A node that was found.

use ubifs_base::NodeType;

/// A node of a LEB: its place and length in bytes, and what its header says (`struct ubifs_ch` of
/// ubifs-media.h). A group type is 0 for none, 1 in a group, 2 for the last of one.
#[derive(Clone, Copy, Debug, PartialEq, Eq)]
pub struct Found {
    pub offs: u32,
    pub len: u32,
    pub kind: NodeType,
    pub group: u8,
    pub sqnum: u64,
}
