// Credits that come into the pool, go to a call, and go back to the backing.

ghost use Rattle.std.specs.Prelude.{◌≡◌, ◌⊎◌, ℕ, ◌+◌, ◌-◌, ◌*◌, ◌<◌, ◌^◌, ◌≤◌, true, false, None, Contains, length};
ghost use Rattle.buffered_files.specs.Calls.{SureGoes};
ghost use Rattle.credit_pool.specs.States.{without};
ghost use Rattle.credited_files.specs.Calls.{IsFullFor, needs_room};
ghost use Rattle.credited_files.specs.States.{HasOtherCredits};
ghost use Rattle.credited_files.specs.Stocks.{SeatFits};
ghost use Rattle.fs_model.specs.declared.op.Op.{Op};
ghost use Rattle.fs_laws.specs.Sound.{IsCall};
ghost use Rattle.vfs_ops.specs.declared.event.Event.TheVariants.{Call, Drain, Refill};
ghost use Rattle.vfs_ops.specs.declared.event.Outcome.TheVariants.{Replied};
ghost use Rattle.vfs_ops.specs.Background.{granted_in};
ghost use Rattle.vfs_ops.specs.Events.{IsReply};
ghost use Rattle.vfs_ops.specs.Fs.{files_state};
ghost use Rattle.vfs_ops.specs.Operations.{has_group};
ghost use Rattle.vfs_ops.specs.Passing.{IsCallStep, IsStep};

use crate::stock::pages_touched;
use credit_pool::{Master, Pool, Seat};
use fs_model::{Backing, Op, Reply};
use vfs_ops::{Done, Event, Fs, Outcome};

// How many credits are covered at once.
const AT_ONCE: u64 = 16;

// How many pages a write touches at most.
const MOST: u64 = 17;

// The credits of a backing are few.
pub(crate) fn few_credits<B: Backing>(fs: &Fs<B>)
    ensures { (files_state fs.now).backing.space.credits < 2 ^ 40 }
{
    let _ = fs.refused();
}

// Covers so many credits more, if there is room for them, and answers how many were covered: all or none.
fn covered<B: Backing>(fs: &mut Fs<B>, n: u64) -> u64
    requires few { n < 2 ^ 32 }
    requires paid { length (files_state fs.old).kept.pages.dirty ≤ (files_state fs.old).backing.space.credits }
    ensures all { (result ≡ n) ⊎ ((result ≡ 0) × IsFullFor (files_state fs.old).backing n × (files_state fs.new ≡ files_state fs.old)) }
    ensures only { HasOtherCredits (files_state fs.old) (files_state fs.new) }
    ensures credits { (files_state fs.new).backing.space.credits ≡ (files_state fs.old).backing.space.credits + result }
    ensures sure { SureGoes (B.outlook fs.old.backing) (B.outlook fs.new.backing) (B.state fs.old.backing) (B.state fs.new.backing) }
{
    let outcome = fs.step(&Event::Refill { n });
    granted(&outcome)
}

// How many credits an outcome says were covered.
pub(crate) fn granted(outcome: &Outcome) -> u64
    ensures { result ≡ granted_in outcome.now }
{
    match outcome {
        Outcome::Granted { n } => *n,
        _ => 0,
    }
}

// Covers sixteen credits more, or as many as are wanted, and answers how many: none only if there is no room for those.
fn covered_at_once<B: Backing>(fs: &mut Fs<B>, wanted: u64) -> u64
    requires some { (0 < wanted) × (wanted ≤ 17) }
    requires paid { length (files_state fs.old).kept.pages.dirty ≤ (files_state fs.old).backing.space.credits }
    ensures all { (wanted ≤ result) ⊎ ((result ≡ 0) × IsFullFor (files_state fs.old).backing wanted) }
    ensures few { result ≤ 17 }
    ensures only { HasOtherCredits (files_state fs.old) (files_state fs.new) }
    ensures credits { (files_state fs.new).backing.space.credits ≡ (files_state fs.old).backing.space.credits + result }
    ensures sure { SureGoes (B.outlook fs.old.backing) (B.outlook fs.new.backing) (B.state fs.old.backing) (B.state fs.new.backing) }
{
    let all = covered(fs, wanted.max(AT_ONCE));
    if all >= wanted {
        return all;
    }
    covered(fs, wanted)
}

// The grant of an operation that brings so many credits and whose words touch so many pages. What it lacks is covered, if there is
// room, and what is covered beyond that goes into the pool.
pub(crate) fn completed<B: Backing>(
    fs: &mut Fs<B>,
    master: &mut Master,
    issued: &mut u64,
    pool: &Pool,
    held: u64,
    pages: u64,
) -> u64
    requires pool { master.old.pool ≡ pool.now }
    requires counted { master.old.issued ≡ issued.old }
    requires held { held ≤ pages }
    requires credits { (files_state fs.old).backing.space.credits ≡ length (files_state fs.old).kept.pages.dirty + issued.old }
    ensures grant { (held ≤ result) × (result ≤ pages) }
    ensures whole { pages ≤ 17 → (result ≡ pages) ⊎ IsFullFor (files_state fs.old).backing (pages - result) }
    ensures only { HasOtherCredits (files_state fs.old) (files_state fs.new) }
    ensures credits { (files_state fs.new).backing.space.credits + held ≡ length (files_state fs.new).kept.pages.dirty + issued.new + result }
    ensures issued { issued.old ≤ issued.new }
    ensures few { issued.new + result ≤ issued.old + held + 17 }
    ensures master { master.new ≡ record { pool = pool.now; issued = issued.new; held = master.old.held; out = master.old.out } }
    ensures sure { SureGoes (B.outlook fs.old.backing) (B.outlook fs.new.backing) (B.state fs.old.backing) (B.state fs.new.backing) }
{
    if held >= pages {
        return held;
    }
    if pages > MOST {
        return held;
    }
    let wanted = pages - held;
    let all = covered_at_once(fs, wanted);
    if all < wanted {
        return held;
    }
    few_credits(fs);
    pool.refill(master, all - wanted);
    *issued += all - wanted;
    pages
}

// Takes all credits out of the pool, and gives them back to the backing. What callers hold stays issued.
pub(crate) fn drained<B: Backing>(
    fs: &mut Fs<B>,
    master: &mut Master,
    issued: &mut u64,
    pool: &Pool,
) -> Done<B>
    requires pool { master.old.pool ≡ pool.now }
    requires counted { master.old.issued ≡ issued.old }
    requires paid { length (files_state fs.old).kept.pages.dirty + issued.old ≤ (files_state fs.old).backing.space.credits }
    ensures event { (n : ℕ) × (result.event ≡ Drain n) × (issued.old ≡ issued.new + n) }
    ensures step { IsStep (files_state fs.old) (files_state fs.new) result.event result.outcome }
    ensures left { (master.old.held ≤ issued.new) × (issued.new ≤ master.old.held + 17 * length master.old.out) }
    ensures master { master.new ≡ record { pool = pool.now; issued = issued.new; held = master.old.held; out = master.old.out } }
    ensures sure { SureGoes (B.outlook fs.old.backing) (B.outlook fs.new.backing) (B.state fs.old.backing) (B.state fs.new.backing) }
{
    let n = pool.drain(master);
    *issued -= n;
    fs.act(Event::Drain { n })
}

// Drains the pool, if a call with this grant may ask for room.
pub(crate) fn cleared<B: Backing>(
    fs: &mut Fs<B>,
    master: &mut Master,
    issued: &mut u64,
    pool: &Pool,
    grant: u64,
    op: &Op,
)
    requires pool { master.old.pool ≡ pool.now }
    requires counted { master.old.issued ≡ issued.old }
    requires held { master.old.held ≤ issued.old }
    requires paid { length (files_state fs.old).kept.pages.dirty + issued.old ≤ (files_state fs.old).backing.space.credits }
    ensures empty { needs_room grant op.now ≡ true → issued.new ≤ master.old.held + 17 * length master.old.out }
    ensures kept { needs_room grant op.now ≡ false → issued.new ≡ issued.old }
    ensures less { issued.new ≤ issued.old }
    ensures only { HasOtherCredits (files_state fs.old) (files_state fs.new) }
    ensures credits { (files_state fs.new).backing.space.credits + issued.old ≡ (files_state fs.old).backing.space.credits + issued.new }
    ensures held { master.old.held ≤ issued.new }
    ensures master { master.new ≡ record { pool = pool.now; issued = issued.new; held = master.old.held; out = master.old.out } }
    ensures sure { SureGoes (B.outlook fs.old.backing) (B.outlook fs.new.backing) (B.state fs.old.backing) (B.state fs.new.backing) }
{
    if needs_room(grant, op) {
        let _ = drained(fs, master, issued, pool);
    }
}

// Whether a call that brings so many credits may ask for room.
fn needs_room(grant: u64, op: &Op) -> bool
    ensures { result ≡ needs_room grant op.now }
{
    has_group(op) || grant < pages_touched(op)
}

// Whether an operation puts one group.
fn has_group(op: &Op) -> bool
    ensures { result ≡ has_group op.now }
{
    match op {
        Op::OpenFile { .. }
        | Op::Close { .. }
        | Op::Read { .. }
        | Op::Write { .. }
        | Op::Fsync { .. }
        | Op::Flush
        | Op::List { .. }
        | Op::Stat { .. }
        | Op::Readlink { .. } => false,
        Op::Create { .. }
        | Op::Mkdir { .. }
        | Op::Symlink { .. }
        | Op::Link { .. }
        | Op::Unlink { .. }
        | Op::Rmdir { .. }
        | Op::Rename { .. }
        | Op::Truncate { .. }
        | Op::Chmod { .. } => true,
    }
}

// Ends a caller's seat, if there is one. The master holds its credits then.
pub(crate) fn joined(pool: &Pool, master: &mut Master, caller: u16, seat: Option<Seat>, held: u64)
    requires pool { (master.old.pool ≡ pool.now) × (master.old.held ≡ 0) }
    requires seat { SeatFits pool.now caller held seat }
    requires none { seat ≡ None → ¬ Contains master.old.out caller }
    ensures master { master.new ≡ record { pool = pool.now; issued = master.old.issued; held = held; out = without caller master.old.out } }
    ensures gone { ¬ Contains master.new.out caller }
    ensures held { held ≤ master.old.issued }
{
    if let Some(seat) = seat {
        pool.join(master, seat);
    }
}

// What a call has spent of the credits that it brought is issued no longer, and what it left goes into the pool. The master holds none
// then.
pub(crate) fn settled(master: &mut Master, issued: &mut u64, pool: &Pool, held: u64, left: u64)
    requires pool { master.old.pool ≡ pool.now }
    requires counted { (master.old.issued ≡ issued.old) × (master.old.held ≡ held) }
    requires enough { (held ≤ issued.old) × (issued.old + left < 2 ^ 63) }
    ensures issued { issued.new + held ≡ issued.old + left }
    ensures master { master.new ≡ record { pool = pool.now; issued = issued.new; held = 0; out = master.old.out } }
{
    pool.settle(master, held);
    pool.refill(master, left);
    *issued = *issued - held + left;
}
