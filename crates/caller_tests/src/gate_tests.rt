// Two workers wait at their gate, outside the lock, while a caller is answered.

ghost use Rattle.std.specs.Prelude.{◌≡◌, length};
ghost use Rattle.fs_laws.specs.Sound.{IsCall};
ghost use Rattle.traced_files.specs.Start.{IsNewLedger};
ghost use Rattle.vfs_ops.specs.Fs.{files_state};
ghost use Rattle.writeback.specs.Runs.{MayRun};

use crate::fixture::fresh_files;
use crate::gates::{HeldGate, TURNS};
use crate::jobs::{LastCaller, last_of};
use credit_pool::Pool;
use fs_model::{Backing, Op, Reply};
use live_fs::Live;
use plain_backing::PlainBacking;
use std::alloc::Global;
use std::marker::Brand;
use std::sync::Wait;
use std::thread;
use std::thread::{Threads, join};
use trace_word::TraceWord;
use traced_files::{Ledger, Site};
use ubifs_base::Memory;
use vfs_ops::{Fs, Outcome};
use writeback::{Job, StopKey, run, worker};

// Whether a pick finds a dirty page; none if it is answered otherwise.
fn finds_page<B: Backing, J: Site, R: Wait>(rt: &R, live: &Live<B, StopKey, J>) -> Option<bool> {
    match live.pick(rt).into_outcome() {
        Outcome::Page { .. } => Some(true),
        Outcome::NoPage => Some(false),
        _ => None,
    }
}

// Picks until no page is dirty, and answers whether it came so far.
fn all_clean<B: Backing, J: Site, R: Wait>(rt: &R, live: &Live<B, StopKey, J>) -> bool {
    for _ in 0..TURNS {
        if !finds_page(rt, live).unwrap_or(true) {
            return true;
        }
        thread::yield_now();
    }
    false
}

// Whether a reply has five bytes.
fn has_five(reply: Reply) -> bool {
    match reply {
        Reply::Bytes { bytes } => bytes.len() == 5,
        _ => false,
    }
}

// A caller makes pages dirty, waits until both workers stand at the gate, reads, opens the gate, and waits until no page is
// dirty. It answers whether the read was answered while both were held and a page was dirty, and all came in turn.
fn call_beside<B: Backing, J: Site, R: Wait>(
    rt: &R,
    live: &Live<B, StopKey, J>,
    gate: &HeldGate,
    job: Job,
    read: Op,
    keys: Vec<StopKey>,
) -> bool
    requires job { MayRun J.word J.pool job }
    requires read { IsCall read }
{
    let pass = run(rt, live, job);
    let came = gate.is_met();
    let (_, reply) = live.call(rt, pass, 8, read);
    let answered = has_five(reply);
    let dirty = finds_page(rt, live).unwrap_or(false);
    gate.open();
    let clean = all_clean(rt, live);
    let _ = live.stop(rt, keys);
    came && answered && dirty && clean
}

// How many puts a worker makes.
fn puts_of<B: Backing, J: Site, R: Wait>(
    rt: &R,
    live: &Live<B, StopKey, J>,
    id: u16,
    gate: &HeldGate,
) -> u64 {
    worker(rt, live, id, gate).0
}

// Two workers, and a caller beside them. It answers whether all came in turn.
fn worked_beside<B: Backing + Drop + Send, J: Site + Send + Sync, R: Threads + Wait + Sync>(
    rt: &R,
    alloc: Global,
    fs: Fs<B>,
    word: TraceWord,
    pool: Pool,
    ledger: Ledger,
    job: Job,
    read: Op,
    keys: Vec<StopKey>,
) -> bool
    requires word { (word ≡ J.word) × (pool ≡ J.pool) }
    requires ledger { IsNewLedger J.word J.pool J.start.callers ledger }
    requires start { files_state fs ≡ J.start.files }
    requires sure { J.start.outlook.sure → (B.outlook fs.backing).sure }
    requires credits { (files_state fs).backing.space.credits ≡ length (files_state fs).kept.pages.dirty }
    requires job { MayRun J.word J.pool job }
    requires read { IsCall read }
{
    let live: Live<B, StopKey, J> = Live::new(alloc, fs, word, pool, ledger);
    let gate = HeldGate::new();
    let (puts, told) = join(
        rt,
        || -> (u64, u64) {
            join(
                rt,
                || -> u64 { puts_of(rt, &live, 1, &gate) },
                || -> u64 { puts_of(rt, &live, 2, &gate) },
            )
        },
        || -> bool
            requires { MayRun J.word J.pool job × IsCall read }
        { call_beside(rt, &live, &gate, job, read, keys) },
    );
    puts.0 > 0 && puts.1 > 0 && told && gate.is_passed()
}

// As many keys as there are workers.
fn two_keys(alloc: Global) -> Result<Vec<StopKey>, Memory> {
    let mut keys = Vec::new(alloc);
    keys.push(StopKey {})?;
    keys.push(StopKey {})?;
    Ok(keys)
}

// The same on a fresh volume, for a caller whose write makes two pages dirty.
fn worked_on_fresh<R: Threads + Wait + Sync>(rt: &R, alloc: Global) -> Result<bool, Memory> {
    let keys = two_keys(alloc)?;
    let fs = fresh_files(alloc)?;
    let LastCaller {
        word,
        pool,
        ledger,
        job,
        later,
    } = last_of(alloc, 1, b"cow", b'r')?;
    Ok(worked_beside::<PlainBacking, Brand, R>(rt, alloc, fs, word, pool, ledger, job, later, keys))
}

// No page is put before the caller has opened the gate, at which both workers stand at once.
#[test]
fn two_workers_wait_at_their_gate_without_the_lock(rt: HostRuntime) {
    assert_eq!(rt; worked_on_fresh(&rt, rt.alloc()), Ok(true));
}
