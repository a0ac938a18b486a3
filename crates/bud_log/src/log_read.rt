// A log that was read.

use crate::head_at::HeadAt;
use leb_scan::Tail;

/// The number of the commit with whose start the log begins, if it begins with one; the buds in the order in which the log first
/// names them, each with the head that its first reference names and the least offset of all of its references; the greatest
/// sequence number of all nodes that were read, or 0; and the LEB, the offset in bytes and the tail with which the log ends.
#[derive(Debug, Drop)]
pub struct LogRead {
    pub commit: Option<u64>,
    pub buds: Vec<HeadAt>,
    pub sqnum: u64,
    pub lnum: u32,
    pub offs: u32,
    pub tail: Tail,
}
