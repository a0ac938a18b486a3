// A phase, and the close behind it.

ghost use Rattle.std.specs.Prelude.{◌≡◌, ◌<◌, All, IfOk, IfErr, length};
ghost use Rattle.traced_files.specs.Calls.{AreLinesLegal, IsClosedHistory};
ghost use Rattle.vfs_ops.specs.Fs.{files_state};
ghost use Rattle.writeback.specs.Runs.{HasLines, MayRun};

use crate::gate::Gate;
use crate::job::Job;
use crate::together::{StopKey, phase};
use fs_model::Backing;
use live_fs::{Closed, Live};
use std::alloc::Global;
use std::sync::Wait;
use std::thread::Threads;
use traced_files::Site;
use ubifs_base::Memory;

/// What comes back if there is no memory for a phase: the files behind their lock, and the jobs.
#[derive(Drop)]
pub struct NotBegun<B: Backing, J: Site> {
    pub live: Live<B, StopKey, J>,
    pub jobs: Vec<Job>,
}

/// Runs all jobs at once, beside so many workers, and closes the files.
///
/// The lines lead from the start to the files that are handed back, and are legal. Of each job's caller they have those of its
/// operations behind those that its pass had seen, in order, and no others. No credit is covered beside those of dirty
/// pages. If there is no memory for the threads' tasks, nothing has begun.
pub fn close_after_phase<
    B: Backing + Send,
    J: Site + Send + Sync,
    G: Gate + Sync,
    R: Threads + Wait + Sync,
>(
    rt: &R,
    alloc: Global,
    live: Live<B, StopKey, J>,
    jobs: Vec<Job>,
    workers: u16,
    gate: &G,
) -> Result<Closed<B>, (Memory, NotBegun<B, J>)>
    requires some { 0 < length jobs.items }
    requires jobs { All (λ j. MayRun J.word J.pool j) jobs.items }
    ensures history { IfOk result (λ closed. IsClosedHistory J.start closed.trace.items (files_state closed.fs) (B.outlook closed.fs.backing)) }
    ensures legal { IfOk result (λ closed. AreLinesLegal J.start closed.trace.items (files_state closed.fs) (B.outlook closed.fs.backing)) }
    ensures lines { IfOk result (λ closed. All (λ j. HasLines closed.trace.items j) jobs.items) }
    ensures credits { IfOk result (λ closed. (files_state closed.fs).backing.space.credits ≡ length (files_state closed.fs).kept.pages.dirty) }
    ensures back { IfErr result (λ fault. fault.1.jobs.items ≡ jobs.items) }
{
    match phase(rt, alloc, &live, jobs, workers, gate) {
        Ok(passes) => Ok(live.close(passes)),
        Err((fault, jobs)) => Err((fault, NotBegun { live, jobs })),
    }
}
