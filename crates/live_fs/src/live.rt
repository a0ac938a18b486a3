// Files behind their lock.

ghost use Rattle.std.specs.Prelude.{◌≡◌, ◌⊎◌, ℕ, ◌<◌, ◌^◌, true, All, IfSome, length};
ghost use Rattle.fs_laws.specs.Sound.{IsCall};
ghost use Rattle.live_fs.specs.Steps.{WasAnswered, WasDrained};
ghost use Rattle.traced_files.specs.Calls.{AreLinesLegal, IsClosedHistory, IsEntered, IsUndone, StandsInTrace};
ghost use Rattle.traced_files.specs.Start.{IsNewLedger};
ghost use Rattle.traced_files.specs.States.{TracedPassState};
ghost use Rattle.vfs_ops.specs.declared.event.Event.TheVariants.{Drain, Pick, Put, Refill};
ghost use Rattle.vfs_ops.specs.Background.{is_work};
ghost use Rattle.vfs_ops.specs.Fs.{files_state};

use crate::keys::{LeftKeys, StopKind};
use credit_pool::Pool;
use fs_model::{Backing, Op, Reply, TraceLine};
use std::alloc::Global;
use std::sync::{Mutex, Wait};
use trace_word::TraceWord;
use traced_files::{Finished, Ledger, Pass, Site, TracedFs, meet_all};
use vfs_ops::{Done, Encoded, Event, Fs};

/// Files over a backing that callers share, and workers, who stop with a key. A `Live` makes no key.
#[derive(Drop)]
pub struct Live<B: Backing, K: StopKind, J: Site> {
    word: TraceWord,
    pool: Pool,
    traced: Mutex<TracedFs<B, J>>,
    keys: Mutex<LeftKeys<K>>,
    ghost of_word: { word ≡ J.word },
    ghost of_pool: { pool ≡ J.pool },
}

/// What is left of it: the files over their backing, and the lines of all calls.
#[derive(Drop)]
pub struct Closed<B: Backing> {
    pub fs: Fs<B>,
    pub trace: Vec<TraceLine>,
}

impl<B: Backing, K: StopKind, J: Site> Live<B, K, J> {
    /// Files behind a lock, with no line yet, whose pool is empty.
    pub fn new(
        alloc: Global,
        fs: Fs<B>,
        word: TraceWord,
        pool: Pool,
        ledger: Ledger,
    ) -> Live<B, K, J>
        requires word { (word ≡ J.word) × (pool ≡ J.pool) }
        requires ledger { IsNewLedger J.word J.pool J.start.callers ledger }
        requires start { files_state fs ≡ J.start.files }
        requires sure { J.start.outlook.sure → (B.outlook fs.backing).sure }
        requires credits { (files_state fs).backing.space.credits ≡ length (files_state fs).kept.pages.dirty }
    {
        Live {
            word,
            pool,
            traced: Mutex::new(TracedFs::new(alloc, fs, ledger)),
            keys: Mutex::new(LeftKeys::new(alloc)),
        }
    }

    /// Makes a call. What it wants is drawn from the pool before the lock is taken. Its line stands at place `last` of the trace, which
    /// begins with all that the pass had seen before. If no memory is found for that line, the reply is want of memory, and there is no
    /// line. So it is of a trace of 2^62 lines, and if the caller has no seat at the pool and as many others as there are callers have.
    pub fn call<R: Wait>(&self, rt: &R, pass: Pass, now: u64, op: Op) -> (Pass, Reply)
        requires pass { (pass.word ≡ J.word) × (pass.pool ≡ J.pool) }
        requires call { IsCall op }
        ensures { IsUndone pass result.0 result.1 ⊎ IsEntered J.start pass now op result.0 result.1 }
    {
        let mut pass = pass;
        let stock = pass.take_stock().draw(&self.pool, &op);
        self.traced
            .lock(rt)
            .call(&self.word, &self.pool, pass, stock, now, op)
    }

    /// The page that became dirty first, as it is now.
    pub fn pick<R: Wait>(&self, rt: &R) -> Done<B>
        ensures event { result.event ≡ Pick }
        ensures step { WasAnswered Pick result.outcome }
    {
        self.traced.lock(rt).pick()
    }

    /// Puts a page that was picked, if it is still as it was then.
    pub fn put<R: Wait>(&self, rt: &R, page: Encoded) -> Done<B>
        ensures event { result.event ≡ Put page }
        ensures step { WasAnswered (Put page) result.outcome }
    {
        self.traced.lock(rt).put(page)
    }

    /// Syncs all that was put, collects a LEB, or goes on with a commit.
    pub fn chore<R: Wait>(&self, rt: &R, event: Event) -> Done<B>
        requires { is_work event ≡ true }
        ensures event { result.event ≡ event }
        ensures step { WasAnswered event result.outcome }
    {
        self.traced.lock(rt).chore(event)
    }

    /// Covers `n` credits more, which go into the pool, if there is room for them.
    pub fn refill<R: Wait>(&self, rt: &R, n: u64) -> Done<B>
        requires { n < 2 ^ 32 }
        ensures event { result.event ≡ Refill n }
        ensures step { WasAnswered (Refill n) result.outcome }
    {
        self.traced.lock(rt).refill(&self.pool, n)
    }

    /// Gives the credits in the pool back to the backing: at most 17 for each caller stay covered, beside those of dirty pages. The
    /// event tells how many went back.
    pub fn drain<R: Wait>(&self, rt: &R) -> Done<B>
        ensures event { (n : ℕ) × (result.event ≡ Drain n) }
        ensures step { WasDrained J.start.callers result.event result.outcome }
    {
        self.traced.lock(rt).drain(&self.pool)
    }

    /// Leaves these keys for workers, and hands back those that were left before.
    pub fn stop<R: Wait>(&self, rt: &R, keys: Vec<K>) -> Vec<K>
        requires { All (λ key. K.may_stop key) keys.items }
        ensures { All (λ key. K.may_stop key) result.items }
    {
        self.keys.lock(rt).exchange(keys)
    }

    /// A key that was left: what holds of each key that is left holds of it. There may be none, and then a worker looks for a
    /// page again.
    pub fn wait_work<R: Wait>(&self, rt: &R) -> Option<K>
        ensures { IfSome result (λ key. K.may_stop key) }
    {
        self.keys.lock(rt).take()
    }

    /// The files and the lines of all calls, which lead from the start to these files and are legal. They begin with what each pass has
    /// seen, and have just the calls that were made with it. No credit is covered beside those of dirty pages.
    pub fn close(self, passes: Vec<Pass>) -> Closed<B>
        requires { All (λ p. p.word ≡ J.word) passes.items }
        ensures history { IsClosedHistory J.start result.trace.items (files_state result.fs) (B.outlook result.fs.backing) }
        ensures legal { AreLinesLegal J.start result.trace.items (files_state result.fs) (B.outlook result.fs.backing) }
        ensures passes { All (λ p. StandsInTrace result.trace.items p) passes.items }
        ensures credits { (files_state result.fs).backing.space.credits ≡ length (files_state result.fs).kept.pages.dirty }
    {
        let Live {
            word,
            pool: _,
            traced,
            keys: _,
        } = self;
        let Finished {
            fs,
            trace,
            mut recorder,
        } = traced.into_inner().finish();
        meet_all(&word, &mut recorder, passes);
        Closed { fs, trace }
    }
}
