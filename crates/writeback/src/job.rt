// A caller's operations.

ghost use Rattle.writeback.specs.Runs.{HasRun, MayRun};

use fs_model::{Backing, Op};
use live_fs::{Live, StopKind};
use std::sync::Wait;
use traced_files::{Pass, Site};

/// A caller's pass, the moment of its calls, and its operations.
#[derive(Drop)]
pub struct Job {
    pub pass: Pass,
    pub now: u64,
    pub ops: Vec<Op>,
}

/// Makes the calls of a job, one after another.
pub fn run<B: Backing, K: StopKind, J: Site, R: Wait>(
    rt: &R,
    live: &Live<B, K, J>,
    job: Job,
) -> Pass
    requires { MayRun J.word J.pool job }
    ensures { HasRun job.pass job.now job.ops.items result }
{
    let Job { mut pass, now, ops } = job;
    pass.has_its_lines();
    for op in ops {
        let (next, _) = live.call(rt, pass, now, op);
        pass = next;
    }
    pass
}
