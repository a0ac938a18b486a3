// What was read and recovered of an image's tree.

use leaf_recovery::RecoveredLeaves;
use log_replay::CommittedLeaf;

/// The committed leaves in order, each with what is told of the intact leaf node that stands at its place; the numbers in the orphan area,
/// in order of LEB and offset; and what recovery makes of both and of the journal.
#[derive(Drop)]
pub struct TreeRead {
    pub committed: Vec<CommittedLeaf>,
    pub listed: Vec<u32>,
    pub recovered: RecoveredLeaves,
}
