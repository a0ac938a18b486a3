// Lines of a history.

use crate::{Op, Reply};

/// A call of a history: who called, the number among that caller's calls from 1, the moment in seconds, the operation
/// and its answer.
#[derive(Drop)]
pub struct TraceLine {
    pub caller: u16,
    pub number: u64,
    pub now: u64,
    pub op: Op,
    pub reply: Reply,
}
