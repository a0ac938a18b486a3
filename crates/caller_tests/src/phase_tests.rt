// Callers and workers at once.

ghost use Rattle.std.specs.Prelude.{◌≡◌, ◌<◌, All, length};
ghost use Rattle.traced_files.specs.Start.{IsNewLedger};
ghost use Rattle.vfs_ops.specs.Fs.{files_state};
ghost use Rattle.writeback.specs.Runs.{MayRun};

use crate::fixture::fresh_files;
use crate::jobs::{jobs_of, tells};
use credit_pool::Pool;
use fs_model::{Backing, TraceLine};
use live_fs::{Closed, Live};
use plain_backing::PlainBacking;
use std::alloc::Global;
use std::marker::Brand;
use std::sync::Wait;
use std::thread::Threads;
use trace_word::TraceWord;
use traced_files::{Ledger, NewTrace, Site, open};
use ubifs_base::Memory;
use vfs_ops::Fs;
use writeback::{Job, OpenGate, StopKey, close_after_phase};

// Whether each of three callers was answered as if it were alone on its file, and there are no other lines.
fn is_each_alone(trace: &[TraceLine]) -> bool {
    let mut alone = trace.len() == 30;
    for caller in 1..4 {
        let read = 5096 + caller as u64;
        let replies = [1, 1, 4100, read, 4100, read, 4100, read, 0, 0];
        alone = alone && tells(trace, caller, &replies);
    }
    alone
}

// Whether that is so behind a phase, and each file has its inode.
fn is_told<B: Backing>(closed: &Closed<B>) -> bool {
    closed.fs.highest() == 67 && is_each_alone(closed.trace.as_slice())
}

// Whether it is so after a phase of these jobs and two workers.
fn told_by_phase<B: Backing + Drop + Send, J: Site + Send + Sync, R: Threads + Wait + Sync>(
    rt: &R,
    alloc: Global,
    fs: Fs<B>,
    word: TraceWord,
    pool: Pool,
    ledger: Ledger,
    jobs: Vec<Job>,
) -> Result<bool, Memory>
    requires word { (word ≡ J.word) × (pool ≡ J.pool) }
    requires ledger { IsNewLedger J.word J.pool J.start.callers ledger }
    requires start { files_state fs ≡ J.start.files }
    requires sure { J.start.outlook.sure → (B.outlook fs.backing).sure }
    requires credits { (files_state fs).backing.space.credits ≡ length (files_state fs).kept.pages.dirty }
    requires jobs { (0 < length jobs.items) × All (λ j. MayRun J.word J.pool j) jobs.items }
{
    let live: Live<B, StopKey, J> = Live::new(alloc, fs, word, pool, ledger);
    match close_after_phase(rt, alloc, live, jobs, 2, &OpenGate {}) {
        Ok(closed) => Ok(is_told(&closed)),
        Err((fault, _)) => Err(fault),
    }
}

// The same on a fresh volume, for three callers.
fn are_answered<R: Threads + Wait + Sync>(rt: &R, alloc: Global) -> Result<bool, Memory> {
    let fs = fresh_files(alloc)?;
    let NewTrace {
        word,
        pool,
        ledger,
        passes,
    } = open(alloc, 3, 3)?;
    let jobs = jobs_of(alloc, passes, b"cowrwrwrax")?;
    told_by_phase::<PlainBacking, Brand, R>(rt, alloc, fs, word, pool, ledger, jobs)
}

// Three callers' lines are one history, in which each caller's are in order.
#[test]
fn three_callers_and_two_workers_make_one_history(rt: HostRuntime) {
    assert_eq!(rt; are_answered(&rt, rt.alloc()), Ok(true));
}
