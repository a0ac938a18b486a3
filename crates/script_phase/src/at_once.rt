// Callers at work at once.

ghost use Rattle.std.specs.Prelude.{◌≡◌, ◌<◌, All, IfOk, length};
ghost use Rattle.fs_laws.specs.Sound.{IsCall};
ghost use Rattle.fs_model.specs.Legal.{IsLegal};
ghost use Rattle.plain_backing.specs.PlainBacking.{outlook_of};
ghost use Rattle.traced_files.specs.Calls.{AreLinesLegal, IsClosedHistory};
ghost use Rattle.traced_files.specs.History.{opening_of, present_of};
ghost use Rattle.traced_files.specs.Seen.{LeavesSeen};
ghost use Rattle.traced_files.specs.Start.{IsNewLedger};
ghost use Rattle.vfs_ops.specs.FilesState.{present_in};
ghost use Rattle.vfs_ops.specs.Fs.{files_state};
ghost use Rattle.writeback.specs.Runs.{HasLines, MayRun};
ghost use Rattle.script_phase.specs.Phases.{HasSameLimits, IsOneTrace, IsUnfailing, callers_in};

use crate::jobs::{counts_of, jobs_of};
use crate::lines::{CallerLine, callers_in, last_caller};
use crate::whole::is_whole;
use credit_pool::Pool;
use live_fs::{Closed, Live};
use plain_backing::PlainBacking;
use std::alloc::Global;
use std::marker::Brand;
use std::sync::Wait;
use std::thread::Threads;
use trace_word::TraceWord;
use traced_files::{Ledger, NewTrace, Site, open};
use ubifs_base::Memory;
use vfs_ops::Fs;
use writeback::{Gate, Job, StopKey, close_after_phase};

/// Serves the lines of all callers at once, at this time in seconds since 1970, beside so many workers. Callers are few: there is a thread
/// for each number up to the greatest. The error is want of memory, also if it was found by one line alone; the files are lost then.
pub fn serve_at_once<G: Gate + Sync, R: Threads + Wait + Sync>(
    rt: &R,
    alloc: Global,
    fs: Fs<PlainBacking>,
    now: u64,
    lines: Vec<CallerLine>,
    workers: u16,
    gate: &G,
) -> Result<Closed<PlainBacking>, Memory>
    requires unfailing { IsUnfailing fs.backing fs.kept }
    requires some { 0 < length lines.items }
    requires lines { All (λ line. (0 < line.caller) × IsCall line.op) lines.items }
    ensures unfailing { IfOk result (λ closed. IsUnfailing closed.fs.backing closed.fs.kept) }
    ensures layout { IfOk result (λ closed. HasSameLimits fs.backing closed.fs.backing) }
    ensures trace { IfOk result (λ closed. IsOneTrace (opening_of (files_state fs) (outlook_of fs.backing) (callers_in lines.items)) now lines.items closed.trace.items (files_state closed.fs)) }
    ensures left { IfOk result (λ closed. LeavesSeen (present_in (files_state fs)) (files_state fs).backing.journal closed.trace.items (files_state closed.fs).backing.journal) }
    ensures legal { IfOk result (λ closed. IsLegal (opening_of (files_state fs) (outlook_of fs.backing) (callers_in lines.items)) closed.trace.items (present_of fs.refused.items (files_state closed.fs) (outlook_of closed.fs.backing))) }
{
    let last = last_caller(lines.as_slice());
    let callers = callers_in(lines.as_slice());
    let NewTrace {
        word,
        pool,
        ledger,
        passes,
    } = open(alloc, last, callers)?;
    let jobs = jobs_of(alloc, passes, now, lines)?;
    let counts = counts_of(alloc, &jobs)?;
    let closed = ran::<Brand, G, R>(rt, alloc, fs, word, pool, ledger, jobs, workers, gate)?;
    if !is_whole(closed.trace.as_slice(), counts.as_slice()) {
        return Err(Memory);
    }
    Ok(closed)
}

// Runs all jobs at once, and closes the files.
fn ran<J: Site + Send + Sync, G: Gate + Sync, R: Threads + Wait + Sync>(
    rt: &R,
    alloc: Global,
    fs: Fs<PlainBacking>,
    word: TraceWord,
    pool: Pool,
    ledger: Ledger,
    jobs: Vec<Job>,
    workers: u16,
    gate: &G,
) -> Result<Closed<PlainBacking>, Memory>
    requires word { (word ≡ J.word) × (pool ≡ J.pool) }
    requires ledger { IsNewLedger J.word J.pool J.start.callers ledger }
    requires start { files_state fs ≡ J.start.files }
    requires sure { J.start.outlook.sure → (outlook_of fs.backing).sure }
    requires credits { (files_state fs).backing.space.credits ≡ length (files_state fs).kept.pages.dirty }
    requires jobs { (0 < length jobs.items) × All (λ j. MayRun J.word J.pool j) jobs.items }
    ensures history { IfOk result (λ closed. IsClosedHistory J.start closed.trace.items (files_state closed.fs) (outlook_of closed.fs.backing)) }
    ensures legal { IfOk result (λ closed. AreLinesLegal J.start closed.trace.items (files_state closed.fs) (outlook_of closed.fs.backing)) }
    ensures lines { IfOk result (λ closed. All (λ j. HasLines closed.trace.items j) jobs.items) }
    ensures credits { IfOk result (λ closed. (files_state closed.fs).backing.space.credits ≡ length (files_state closed.fs).kept.pages.dirty) }
{
    let live: Live<PlainBacking, StopKey, J> = Live::new(alloc, fs, word, pool, ledger);
    match close_after_phase(rt, alloc, live, jobs, workers, gate) {
        Ok(closed) => Ok(closed),
        Err((fault, _)) => Err(fault),
    }
}
