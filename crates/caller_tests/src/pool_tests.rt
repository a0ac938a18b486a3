// A caller's write draws from the pool.

ghost use Rattle.std.specs.Prelude.{◌≡◌, length};
ghost use Rattle.fs_laws.specs.Sound.{IsCall};
ghost use Rattle.traced_files.specs.Start.{IsNewLedger};
ghost use Rattle.vfs_ops.specs.Fs.{files_state};
ghost use Rattle.writeback.specs.Runs.{MayRun};

use crate::fixture::fresh_files;
use crate::jobs::{LastCaller, last_of};
use credit_pool::Pool;
use fs_model::{Backing, Op};
use live_fs::Live;
use plain_backing::PlainBacking;
use std::alloc::Global;
use std::marker::Brand;
use std::sync::Wait;
use trace_word::TraceWord;
use traced_files::{Ledger, Site};
use ubifs_base::Memory;
use vfs_ops::{Fs, Outcome};
use writeback::{Job, StopKey, run};

// How many credits a drain finds in the pool.
fn drained<B: Backing, J: Site, R: Wait>(
    rt: &R,
    live: &Live<B, StopKey, J>,
) -> Result<u64, Memory> {
    match live.drain(rt).into_outcome() {
        Outcome::Drained { n } => Ok(n),
        _ => Err(Memory),
    }
}

// Runs a job, of which no write is to be the first call, makes a call once sixteen credits are in the pool, and answers how many a drain
// finds there.
fn left_in_pool<B: Backing + Drop, J: Site, R: Wait>(
    rt: &R,
    alloc: Global,
    fs: Fs<B>,
    word: TraceWord,
    pool: Pool,
    ledger: Ledger,
    job: Job,
    later: Op,
) -> Result<u64, Memory>
    requires word { (word ≡ J.word) × (pool ≡ J.pool) }
    requires ledger { IsNewLedger J.word J.pool J.start.callers ledger }
    requires start { files_state fs ≡ J.start.files }
    requires sure { J.start.outlook.sure → (B.outlook fs.backing).sure }
    requires credits { (files_state fs).backing.space.credits ≡ length (files_state fs).kept.pages.dirty }
    requires job { MayRun J.word J.pool job }
    requires later { IsCall later }
{
    let live: Live<B, StopKey, J> = Live::new(alloc, fs, word, pool, ledger);
    let pass = run(rt, &live, job);
    let _ = live.refill(rt, 16);
    let _ = live.call(rt, pass, 7, later);
    drained(rt, &live)
}

// How many credits a drain finds in the pool of so many callers. The last of them runs a job and makes a call, and sixteen credits are
// covered between these.
fn left_between<R: Wait>(
    rt: &R,
    alloc: Global,
    callers: u16,
    first: &[u8],
    later: u8,
) -> Result<u64, Memory> {
    let fs = fresh_files(alloc)?;
    let LastCaller {
        word,
        pool,
        ledger,
        job,
        later,
    } = last_of(alloc, callers, first, later)?;
    left_in_pool::<PlainBacking, Brand, R>(rt, alloc, fs, word, pool, ledger, job, later)
}

// How many callers there are, the last one's job and its call behind it, and how many credits are left in the pool behind them.
const ROWS: &[(u16, &[u8], u8, u64)] = &[
    // A write takes one for each page that its words touch; a page that is dirty needs none, so its credit comes back.
    (1, b"co", b'p', 15),
    (1, b"co", b'w', 14),
    (1, b"cop", b'p', 31),
    // A create leaves none, though another caller might hold seventeen.
    (2, b"a", b'c', 0),
];

// A drain finds what the calls left in the pool.
#[test]
fn a_write_takes_its_credits_and_a_create_leaves_none(rt: HostRuntime) {
    for (callers, first, later, left) in ROWS {
        assert_eq!(rt;
            left_between(&rt, rt.alloc(), *callers, first, *later),
            Ok(*left)
        );
    }
}
