// Files whose lines are kept.

ghost use Rattle.std.specs.Prelude.{◌≡◌, ◌⊎◌, ℕ, ◌+◌, ◌*◌, ◌<◌, ◌^◌, ◌≤◌, true, [], length};
ghost use Rattle.credited_files.specs.Calls.{is_work_between};
ghost use Rattle.credited_files.specs.States.{HasOtherCredits};
ghost use Rattle.fs_laws.specs.Sound.{IsCall};
ghost use Rattle.fs_model.specs.Legal.{pages_in};
ghost use Rattle.traced_files.specs.Calls.{AreLinesLegal, IsClosedHistory, IsEntered, IsUndone, WasStepped};
ghost use Rattle.traced_files.specs.Start.{IsNewLedger};
ghost use Rattle.traced_files.specs.States.{TracedPassState, TracedState};
ghost use Rattle.vfs_ops.specs.declared.event.Event.TheVariants.{Drain, Pick, Put, Refill};
ghost use Rattle.vfs_ops.specs.Background.{is_work};
ghost use Rattle.vfs_ops.specs.Fs.{files_state};
ghost use Rattle.vfs_ops.specs.Passing.{IsStep};

use crate::law::laws;
use crate::pass::Pass;
use crate::passes::Ledger;
use crate::replies::{out_of_memory, twice};
use crate::site::Site;
use buffered_files::alike_files_are_the_same;
use credit_pool::Pool;
use credited_files::{CreditedFs, Stock};
use fs_model::{Backing, Op, Reply, TraceLine};
use std::alloc::Global;
use std::marker::{Model, PhantomData};
use trace_word::{Recorder, TraceWord};
use vfs_ops::{Done, Encoded, Event, Fs};

// How many lines a trace has at most.
const MOST: usize = 1 << 62;

/// Files over a backing, with the lines of all calls so far, which lead from the start to the present files, and the master of the
/// callers' pool. Each covered credit is that of a dirty page, or was issued to the pool (`CreditedFs`). Contracts see them as a
/// `TracedState`: the files over their backing, and the lines.
#[derive(Drop)]
pub struct TracedFs<B: Backing, J: Site> {
    pub(crate) alloc: Global,
    pub(crate) credited: CreditedFs<B>,
    pub(crate) recorder: Recorder,
    pub(crate) trace: Vec<TraceLine>,
    pub(crate) of: PhantomData<J>,
}

impl<B: Backing, J: Site> Model for TracedFs<B, J> {
    ghost use Rattle.traced_files.specs.States.{TracedState};

    ghost Value = { TracedState };

    ghost use Rattle.std.specs.Prelude.{◌≡◌};
    ghost use Rattle.traced_files.specs.Traced.{IsTraced};
    ghost use Rattle.vfs_ops.specs.Fs.{files_state};

    ghost view = { λ c. record { files = files_state c.credited.fs; trace = c.trace.items } };

    ghost invariant = { λ c. IsTraced J.word J.start (files_state c.credited.fs) (B.outlook c.credited.fs.backing) c.recorder c.trace.items × (c.credited.master.pool ≡ J.pool) × (c.credited.callers ≡ J.start.callers) };
}

/// What is left of them: the files over their backing, the lines, and who recorded them.
#[derive(Drop)]
pub struct Finished<B: Backing> {
    pub fs: Fs<B>,
    pub trace: Vec<TraceLine>,
    pub recorder: Recorder,
}

impl<B: Backing, J: Site> TracedFs<B, J> {
    /// Files with no line yet, whose pool is empty.
    pub fn new(alloc: Global, fs: Fs<B>, ledger: Ledger) -> TracedFs<B, J>
        requires ledger { IsNewLedger J.word J.pool J.start.callers ledger }
        requires start { files_state fs ≡ J.start.files }
        requires sure { J.start.outlook.sure → (B.outlook fs.backing).sure }
        requires credits { (files_state fs).backing.space.credits ≡ length (files_state fs).kept.pages.dirty }
        ensures { result ≡ record { files = files_state fs; trace = [] } }
    {
        let Ledger {
            recorder,
            master,
            callers,
        } = ledger;
        TracedFs {
            alloc,
            credited: CreditedFs::new(fs, master, callers),
            recorder,
            trace: Vec::new(alloc),
            of: PhantomData,
        }
    }

    /// Makes a call with the credits that its caller drew. Its line stands at place `last` of the trace, which begins with all that the
    /// pass had seen before. If no memory is found for that line, the reply is want of memory, and the files haven't changed. So it is
    /// of a trace of 2^62 lines, and if the caller has no seat at the pool and as many others as there are callers have. What was drawn
    /// goes back to the pool, or is spent.
    pub fn call(
        &mut self,
        word: &TraceWord,
        pool: &Pool,
        pass: Pass,
        stock: Stock,
        now: u64,
        op: Op,
    ) -> (Pass, Reply)
        requires word { (word.now ≡ J.word) × (pool.now ≡ J.pool) }
        requires pass { (pass.word ≡ J.word) × (pass.pool ≡ J.pool) }
        requires stock { (stock.pool ≡ J.pool) × (stock.caller ≡ pass.caller) × (stock.held ≤ pages_in op) }
        requires call { IsCall op }
        ensures called { (IsUndone pass result.0 result.1 × (self.new ≡ self.old)) ⊎ (IsEntered J.start pass now op result.0 result.1 × (self.new.trace ≡ result.0.seen) × WasStepped J.start.callers stock.held self.old.files self.new.files pass.caller now op result.1) }
    {
        let Ok(()) = self.trace.reserve(1) else {
            return undone(pool, pass, stock);
        };
        if self.trace.len() >= MOST || !self.credited.may_serve(&stock) {
            return undone(pool, pass, stock);
        }
        let mut pass = pass;
        word.meet(&mut self.recorder, &mut pass.ticket);
        laws();
        let (op, answer, stock) = self.credited.call(pool, stock, now, op);
        pass.stock = stock;
        let (reply, kept) = twice(self.alloc, answer);
        let last = self.trace.len() as u64;
        pass.made += 1;
        pass.last = last;
        let line = TraceLine {
            caller: pass.caller,
            number: pass.made,
            now,
            op,
            reply: kept,
        };
        word.enter(&mut self.recorder, &mut pass.ticket, last, &line);
        self.trace.push_reserved(line);
        (pass, reply)
    }

    /// The page that became dirty first, as it is now.
    pub fn pick(&mut self) -> Done<B>
        ensures event { result.event ≡ Pick }
        ensures step { IsStep self.old.files self.new.files Pick result.outcome }
        ensures trace { self.new.trace ≡ self.old.trace }
    {
        self.work(Event::Pick)
    }

    /// Puts a page that was picked, if it is still as it was then.
    pub fn put(&mut self, page: Encoded) -> Done<B>
        ensures event { result.event ≡ Put page }
        ensures step { IsStep self.old.files self.new.files (Put page) result.outcome }
        ensures trace { self.new.trace ≡ self.old.trace }
    {
        self.work(Event::Put { page })
    }

    /// Syncs all that was put, collects a LEB, or goes on with a commit.
    pub fn chore(&mut self, event: Event) -> Done<B>
        requires kind { is_work event ≡ true }
        ensures event { result.event ≡ event }
        ensures step { IsStep self.old.files self.new.files event result.outcome }
        ensures trace { self.new.trace ≡ self.old.trace }
    {
        self.work(event)
    }

    /// Covers `n` credits more, which go into the pool, if there is room for them.
    pub fn refill(&mut self, pool: &Pool, n: u64) -> Done<B>
        requires pool { pool.now ≡ J.pool }
        requires few { n < 2 ^ 32 }
        ensures event { result.event ≡ Refill n }
        ensures step { IsStep self.old.files self.new.files (Refill n) result.outcome }
        ensures trace { self.new.trace ≡ self.old.trace }
    {
        laws();
        self.credited.refill(pool, n)
    }

    /// Gives the credits in the pool back to the backing. At most 17 for each caller stay covered, beside those of dirty pages.
    pub fn drain(&mut self, pool: &Pool) -> Done<B>
        requires { pool.now ≡ J.pool }
        ensures event { (n : ℕ) × (result.event ≡ Drain n) }
        ensures step { IsStep self.old.files self.new.files result.event result.outcome }
        ensures left { self.new.files.backing.space.credits ≤ length self.new.files.kept.pages.dirty + 17 * J.start.callers }
        ensures trace { self.new.trace ≡ self.old.trace }
    {
        laws();
        self.credited.drain(pool)
    }

    // Makes an event between lines. It writes none.
    fn work(&mut self, event: Event) -> Done<B>
        requires kind { is_work_between event ≡ true }
        ensures event { result.event ≡ event }
        ensures step { IsStep self.old.files self.new.files event result.outcome }
        ensures trace { self.new.trace ≡ self.old.trace }
    {
        laws();
        self.credited.work(event)
    }

    /// The files over their backing, and the lines, which lead from the start to these files and are legal. No credit is covered beside
    /// those of dirty pages.
    pub fn finish(self) -> Finished<B>
        ensures files { HasOtherCredits self.files (files_state result.fs) }
        ensures trace { result.trace.items ≡ self.trace }
        ensures recorder { (result.recorder.word ≡ J.word) × (result.recorder.known.seen ≡ self.trace) }
        ensures history { IsClosedHistory J.start self.trace (files_state result.fs) (B.outlook result.fs.backing) }
        ensures legal { AreLinesLegal J.start self.trace (files_state result.fs) (B.outlook result.fs.backing) }
        ensures credits { (files_state result.fs).backing.space.credits ≡ length (files_state result.fs).kept.pages.dirty }
    {
        alike_files_are_the_same();
        let TracedFs {
            alloc: _,
            credited,
            recorder,
            trace,
            of: _,
        } = self;
        Finished {
            fs: credited.finish(),
            trace,
            recorder,
        }
    }
}

// A pass whose call is not made. What was drawn goes back to the pool.
fn undone(pool: &Pool, pass: Pass, stock: Stock) -> (Pass, Reply)
    requires { (pass.pool ≡ pool.now) × (stock.pool ≡ pool.now) × (stock.caller ≡ pass.caller) }
    ensures { IsUndone pass result.0 result.1 }
{
    let mut pass = pass;
    pass.stock = stock.give_back(pool);
    (pass, out_of_memory())
}
