// How far a log was read.

use crate::log_end::LogEnd;

/// Where what was read so far ends, and the greatest sequence number of its nodes, or 0.
#[derive(Clone, Copy, Debug, PartialEq, Eq)]
pub(crate) struct ReadTo {
    pub end: LogEnd,
    pub sqnum: u64,
}
