// What callers and the background do to files whose credits are counted.

ghost use Rattle.std.specs.Prelude.{◌≡◌, ℕ, ◌+◌, ◌*◌, ◌<◌, ◌^◌, ◌≤◌, Bool, true, false, None, [], Contains, is_some, length};
ghost use Rattle.buffered_files.specs.Calls.{SureGoes};
ghost use Rattle.credit_pool.specs.States.{without};
ghost use Rattle.credited_files.specs.Calls.{MayBeServed, WasServed, is_work_between};
ghost use Rattle.credited_files.specs.States.{HasOtherCredits};
ghost use Rattle.credited_files.specs.Stocks.{SeatFits};
ghost use Rattle.fs_laws.specs.Sound.{IsCall};
ghost use Rattle.fs_model.specs.Legal.{pages_in};
ghost use Rattle.vfs_ops.specs.declared.event.Event.TheVariants.{Drain, Refill};
ghost use Rattle.vfs_ops.specs.Fs.{files_state};
ghost use Rattle.vfs_ops.specs.Passing.{IsStep};

use crate::credits::{cleared, completed, drained, few_credits, granted, joined, settled};
use crate::file::CreditedFs;
use crate::step::made;
use crate::stock::{Stock, pages_touched};
use credit_pool::{Master, Pool, Seat};
use fs_model::{Backing, Op, Reply};
use vfs_ops::{Done, Event, Fs};

impl<B: Backing> CreditedFs<B> {
    /// Files of which no credit is covered beside those of dirty pages, with the master of a new pool of so many callers.
    pub fn new(fs: Fs<B>, master: Master, callers: u16) -> CreditedFs<B>
        requires fresh { (master.issued ≡ 0) × (master.held ≡ 0) × (master.out ≡ []) }
        requires credits { (files_state fs).backing.space.credits ≡ length (files_state fs).kept.pages.dirty }
        ensures { (result.fs ≡ fs) × (result.master ≡ master) × (result.callers ≡ callers) }
    {
        CreditedFs {
            fs,
            master,
            issued: 0,
            callers,
        }
    }

    /// Whether a caller's call may be made: fewer others have a seat than there are callers, and without its seat the caller has none
    /// elsewhere.
    pub fn may_serve(&self, stock: &Stock) -> bool
        ensures yes { result ≡ true → MayBeServed self.now.master.out self.now.callers stock.now }
        ensures no { result ≡ false → ¬ MayBeServed self.now.master.out self.now.callers stock.now }
    {
        is_served(
            &self.master.out,
            stock.caller,
            self.callers,
            stock.seat.is_some(),
        )
    }

    /// Makes a call with the credits that its caller drew, and hands back the operation, the reply, and the stock, which holds none and
    /// may be served again. What a write lacks is covered before, if there is room. Before a call that may ask for room the pool is
    /// drained: at most 17 credits for each other caller stay issued.
    pub fn call(&mut self, pool: &Pool, stock: Stock, now: u64, op: Op) -> (Op, Reply, Stock)
        requires pool { (self.old.master.pool ≡ pool.now) × (stock.pool ≡ pool.now) }
        requires stock { (stock.held ≤ pages_in op) × MayBeServed self.old.master.out self.old.callers stock }
        requires call { IsCall op }
        ensures step { (result.0 ≡ op) × WasServed self.old.callers stock.held (files_state self.old.fs) (files_state self.new.fs) stock.caller now op result.1 }
        ensures stock { (result.2.pool ≡ pool.now) × (result.2.caller ≡ stock.caller) × (result.2.held ≡ 0) }
        ensures again { MayBeServed self.new.master.out self.old.callers result.2 }
        ensures same { (self.new.master.pool ≡ pool.now) × (self.new.callers ≡ self.old.callers) }
        ensures sure { SureGoes (B.outlook self.old.fs.backing) (B.outlook self.new.fs.backing) (B.state self.old.fs.backing) (B.state self.new.fs.backing) }
    {
        let Stock {
            pool: of,
            seat,
            caller,
            held,
        } = stock;
        let (op, reply, seat) = served(
            &mut self.fs,
            &mut self.master,
            &mut self.issued,
            self.callers,
            pool,
            caller,
            seat,
            held,
            now,
            op,
        );
        let stock = Stock {
            pool: of,
            seat,
            caller,
            held: 0,
        };
        (op, reply, stock)
    }

    /// Makes an event that neither covers credits nor gives any back.
    pub fn work(&mut self, event: Event) -> Done<B>
        requires kind { is_work_between event ≡ true }
        ensures event { result.event ≡ event }
        ensures step { IsStep (files_state self.old.fs) (files_state self.new.fs) event result.outcome }
        ensures same { (self.new.master ≡ self.old.master) × (self.new.callers ≡ self.old.callers) }
        ensures sure { SureGoes (B.outlook self.old.fs.backing) (B.outlook self.new.fs.backing) (B.state self.old.fs.backing) (B.state self.new.fs.backing) }
    {
        self.fs.act(event)
    }

    /// Covers so many credits more, which go into the pool, if there is room for them.
    pub fn refill(&mut self, pool: &Pool, n: u64) -> Done<B>
        requires pool { self.old.master.pool ≡ pool.now }
        requires few { n < 2 ^ 32 }
        ensures event { result.event ≡ Refill n }
        ensures step { IsStep (files_state self.old.fs) (files_state self.new.fs) (Refill n) result.outcome }
        ensures same { (self.new.master.pool ≡ pool.now) × (self.new.callers ≡ self.old.callers) }
        ensures sure { SureGoes (B.outlook self.old.fs.backing) (B.outlook self.new.fs.backing) (B.state self.old.fs.backing) (B.state self.new.fs.backing) }
    {
        let done = self.fs.act(Event::Refill { n });
        let more = granted(done.outcome());
        few_credits(&self.fs);
        pool.refill(&mut self.master, more);
        self.issued += more;
        done
    }

    /// Gives the credits in the pool back to the backing. At most 17 for each caller stay covered, beside those of dirty pages.
    pub fn drain(&mut self, pool: &Pool) -> Done<B>
        requires { self.old.master.pool ≡ pool.now }
        ensures event { (n : ℕ) × (result.event ≡ Drain n) }
        ensures step { IsStep (files_state self.old.fs) (files_state self.new.fs) result.event result.outcome }
        ensures left { (files_state self.new.fs).backing.space.credits ≤ length (files_state self.new.fs).kept.pages.dirty + 17 * self.old.callers }
        ensures same { (self.new.master.pool ≡ pool.now) × (self.new.callers ≡ self.old.callers) }
        ensures sure { SureGoes (B.outlook self.old.fs.backing) (B.outlook self.new.fs.backing) (B.state self.old.fs.backing) (B.state self.new.fs.backing) }
    {
        drained(&mut self.fs, &mut self.master, &mut self.issued, pool)
    }

    /// The files, of which no credit is covered beside those of dirty pages. What callers hold yet in their stocks is covered no longer.
    pub fn finish(self) -> Fs<B>
        ensures only { HasOtherCredits (files_state self.fs) (files_state result) }
        ensures none { (files_state result).backing.space.credits ≡ length (files_state result).kept.pages.dirty }
        ensures sure { SureGoes (B.outlook self.fs.backing) (B.outlook result.backing) (B.state self.fs.backing) (B.state result.backing) }
    {
        let CreditedFs {
            mut fs,
            master: _,
            issued,
            callers: _,
        } = self;
        let _ = fs.act(Event::Drain { n: issued });
        fs
    }
}

// Whether fewer others are out than there are callers, and the caller isn't, if it has no seat.
fn is_served(out: &Vec<u16>, caller: u16, callers: u16, seated: bool) -> bool
    ensures yes { result ≡ true → (length (without caller out.now.items) < callers) × (seated ≡ false → ¬ Contains out.now.items caller) }
    ensures no { result ≡ false → ¬ ((length (without caller out.now.items) < callers) × (seated ≡ false → ¬ Contains out.now.items caller)) }
{
    let others = others_out(out, caller);
    if others >= usize::from(callers) {
        return false;
    }
    if seated {
        return true;
    }
    others == out.len()
}

// How many others are out.
fn others_out(out: &Vec<u16>, caller: u16) -> usize
    ensures { result ≡ length (without caller out.now.items) }
{
    out.iter().filter(|c| **c != caller).count()
}

// Makes a call over the parts of files whose credits are counted.
fn served<B: Backing>(
    fs: &mut Fs<B>,
    master: &mut Master,
    issued: &mut u64,
    callers: u16,
    pool: &Pool,
    caller: u16,
    seat: Option<Seat>,
    held: u64,
    now: u64,
    op: Op,
) -> (Op, Reply, Option<Seat>)
    requires master { (master.old.pool ≡ pool.now) × (master.old.held ≡ 0) × (master.old.issued ≡ issued.old) }
    requires credits { (files_state fs.old).backing.space.credits ≡ length (files_state fs.old).kept.pages.dirty + issued.old }
    requires seat { SeatFits pool.now caller held seat × (seat ≡ None → ¬ Contains master.old.out caller) }
    requires few { (held ≤ pages_in op) × (length (without caller master.old.out) < callers) }
    requires call { IsCall op }
    ensures op { result.0 ≡ op }
    ensures step { WasServed callers held (files_state fs.old) (files_state fs.new) caller now op result.1 }
    ensures seat { SeatFits pool.now caller 0 result.2 }
    ensures again { (length (without caller master.new.out) < callers) × (is_some result.2 ≡ false → ¬ Contains master.new.out caller) }
    ensures master { (master.new.pool ≡ pool.now) × (master.new.held ≡ 0) × (master.new.issued ≡ issued.new) × (length master.new.out ≤ callers) }
    ensures credits { (files_state fs.new).backing.space.credits ≡ length (files_state fs.new).kept.pages.dirty + issued.new }
    ensures sure { SureGoes (B.outlook fs.old.backing) (B.outlook fs.new.backing) (B.state fs.old.backing) (B.state fs.new.backing) }
{
    joined(pool, master, caller, seat, held);
    let pages = pages_touched(&op);
    let grant = completed(fs, master, issued, pool, held, pages);
    cleared(fs, master, issued, pool, grant, &op);
    few_credits(fs);
    let (op, reply, left) = made(fs, caller, now, grant, op);
    settled(master, issued, pool, held, left);
    let seat = pool.split(master, caller).ok();
    (op, reply, seat)
}
