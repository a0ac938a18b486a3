// What the LEBs of a log say.

use crate::journal_node::JournalNode;
use leb_scan::Tail;

/// The nodes to be applied, in order of number: those of whole groups of the heads base and data. Beside them the copies, which
/// are the nodes of the collector's head in order of the log; the greatest inode number in the keys of the nodes to be applied,
/// or 0; the greatest sequence number of all nodes of the texts, also of those that aren't applied, or 0; and how each text
/// ends, in order of the log.
#[derive(Debug, Drop)]
pub struct JournalRead {
    pub nodes: Vec<JournalNode>,
    pub copies: Vec<JournalNode>,
    pub highest: u32,
    pub sqnum: u64,
    pub tails: Vec<Tail>,
}
