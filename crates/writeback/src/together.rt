// All callers and workers of a phase.

ghost use Rattle.std.specs.Prelude.{◌≡◌, ◌<◌, ◌≤◌, ◌+◌, ◌++◌, ℕ, All, [], IfOk, IfErr, length, option_to_list, vec_capacity};
ghost use Rattle.writeback.specs.Runs.{HaveRun, MayRun};
ghost use Rattle.writeback.specs.Tasks.{AreTasksDone, IsTaskDone, IsTaskReady, passes_in, tasks_for};

use crate::background::worker;
use crate::gate::Gate;
use crate::job::{Job, run};
use fs_model::Backing;
use live_fs::{Live, StopKind};
use std::alloc::Global;
use std::mem::replace;
use std::sync::atomic::AtomicU64;
use std::sync::atomic::Ordering::SeqCst;
use std::sync::{Mutex, Wait};
use std::thread;
use std::thread::Threads;
use traced_files::{Pass, Site};
use ubifs_base::Memory;

/// With it a worker stops.
#[derive(Drop)]
pub struct StopKey {}

// Any will do.
impl StopKind for StopKey {
    ghost may_stop = { λ key. Unit {0} };
}

// A caller's job, and its pass once that is done. A worker has neither, and a number.
#[derive(Drop)]
pub(crate) struct Task {
    job: Option<Job>,
    pass: Option<Pass>,
    worker: u16,
}

/// Runs all jobs at once, beside so many workers, and gives each job's pass back. The workers stop once the last job is done.
///
/// If there is no memory for the threads' tasks, nothing has begun, and the jobs come back.
pub fn phase<B: Backing + Send, J: Site + Send + Sync, G: Gate + Sync, R: Threads + Wait + Sync>(
    rt: &R,
    alloc: Global,
    live: &Live<B, StopKey, J>,
    jobs: Vec<Job>,
    workers: u16,
    gate: &G,
) -> Result<Vec<Pass>, (Memory, Vec<Job>)>
    requires some { 0 < length jobs.items }
    requires jobs { All (λ j. MayRun J.word J.pool j) jobs.items }
    ensures ran { IfOk result (λ passes. HaveRun jobs.items passes.items) }
    ensures back { IfErr result (λ fault. fault.1.items ≡ jobs.items) }
{
    let count = jobs.len();
    let Some(all) = count.checked_add(usize::from(workers)) else {
        return Err((Memory, jobs));
    };
    let Ok(mut keys) = Vec::with_capacity(alloc, usize::from(workers)) else {
        return Err((Memory, jobs));
    };
    let Ok(mut passes) = Vec::with_capacity(alloc, count) else {
        return Err((Memory, jobs));
    };
    let Ok(mut tasks) = Vec::with_capacity(alloc, all) else {
        return Err((Memory, jobs));
    };
    cut_keys(&mut keys, workers);
    lay_out(&mut tasks, jobs, workers);
    let left = AtomicU64::new(count as u64);
    let keys = Mutex::new(keys);
    run_tasks(rt, alloc, live, gate, &left, &keys, &mut tasks, all);
    gather(tasks, &mut passes);
    Ok(passes)
}

// A key for each worker.
fn cut_keys(keys: &mut Vec<StopKey>, workers: u16)
    requires { (keys.old.items ≡ []) × (workers ≤ vec_capacity keys.old) }
{
    for cut in 0..workers {
        let _ = cut;
        keys.push_reserved(StopKey {});
    }
}

// Callers stand first.
fn lay_out(tasks: &mut Vec<Task>, jobs: Vec<Job>, workers: u16)
    requires none { tasks.old.items ≡ [] }
    requires room { length (tasks_for jobs.items workers) ≤ vec_capacity tasks.old }
    ensures { tasks.new.items ≡ tasks_for jobs.items workers }
{
    for job in jobs {
        tasks.push_reserved(Task {
            job: Some(job),
            pass: None,
            worker: 0,
        });
    }
    for idle in 0..workers {
        tasks.push_reserved(Task {
            job: None,
            pass: None,
            worker: idle + 1,
        });
    }
}

// The last caller who is done stops the workers.
fn work<B: Backing, J: Site, G: Gate, R: Wait>(
    rt: &R,
    alloc: Global,
    live: &Live<B, StopKey, J>,
    gate: &G,
    left: &AtomicU64,
    keys: &Mutex<Vec<StopKey>>,
    task: &mut Task,
)
    requires { IsTaskReady J.word J.pool task.old }
    ensures { IsTaskDone task.old task.new }
{
    match task.job.take() {
        Some(job) => {
            task.pass = Some(run(rt, live, job));
            if left.fetch_sub(1, SeqCst) == 1 {
                let all = replace(&mut *keys.lock(rt), Vec::new(alloc));
                let _ = live.stop(rt, all);
            }
        }
        None => {
            let _ = worker(rt, live, task.worker, gate);
        }
    }
}

// Each task in a thread of its own.
fn run_tasks<B: Backing + Send, J: Site + Send + Sync, G: Gate + Sync, R: Threads + Wait + Sync>(
    rt: &R,
    alloc: Global,
    live: &Live<B, StopKey, J>,
    gate: &G,
    left: &AtomicU64,
    keys: &Mutex<Vec<StopKey>>,
    tasks: &mut Vec<Task>,
    threads: usize,
)
    requires threads { 0 < threads }
    requires ready { All (λ t. IsTaskReady J.word J.pool t) tasks.old.items }
    ensures length { length tasks.new.items ≡ length tasks.old.items }
    ensures done { AreTasksDone tasks.old.items tasks.new.items }
{
    let slice = tasks.as_mut_slice();
    thread::for_each_mut(
        rt,
        slice,
        threads,
        &|_, task| work(rt, alloc, live, gate, left, keys, task),
    );
}

// A pass behind the others, if there is one.
fn put_pass(passes: &mut Vec<Pass>, pass: Option<Pass>)
    requires { length passes.old.items + length (option_to_list pass) ≤ vec_capacity passes.old }
    ensures items { passes.new.items ≡ passes.old.items ++ option_to_list pass }
    ensures room { vec_capacity passes.new ≡ vec_capacity passes.old }
{
    match pass {
        Some(pass) => passes.push_reserved(pass),
        None => (),
    }
}

// The passes of those who had a job, in order.
fn gather(tasks: Vec<Task>, passes: &mut Vec<Pass>)
    requires none { passes.old.items ≡ [] }
    requires room { length (passes_in tasks.items) ≤ vec_capacity passes.old }
    ensures { passes.new.items ≡ passes_in tasks.items }
{
    for task in tasks {
        let Task { pass, .. } = task;
        put_pass(passes, pass);
    }
}
