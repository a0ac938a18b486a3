// A leaf node where it stands.

use crate::node_content::NodeContent;

/// A leaf node with its sequence number, and the LEB, offset and length at which it stands.
#[derive(Debug, Drop)]
pub struct JournalNode {
    pub content: NodeContent,
    pub sqnum: u64,
    pub lnum: u32,
    pub offs: u32,
    pub len: u32,
}
