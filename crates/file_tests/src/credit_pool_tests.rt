// Credits drawn by hand, and by four threads.

ghost use Rattle.std.specs.Prelude.{◌≡◌, ◌+◌, ◌^◌, ◌<◌, ◌≤◌, [], IfOk};
ghost use Rattle.std.specs.Thread.{IsSync};
ghost use Rattle.credit_pool.specs.States.{without};

use credit_pool::{DrawFault, Master, Pool, Seat};
use std::alloc::Global;
use std::test::Fail;
use std::thread::{Threads, join};
use ubifs_base::Memory;

// One looks, another draws, and the first is too late; then it draws all, and finds nothing more.
fn a_faster_caller_wins(alloc: Global) -> Result<bool, Memory> {
    let (pool, mut master) = Pool::new(alloc)?;
    pool.refill(&mut master, 5);
    let mut slow = pool.split(&mut master, 1)?;
    let mut fast = pool.split(&mut master, 2)?;
    let seen = pool.look(&mut slow);
    let drawn = pool.draw(&mut fast, 2);
    let raced = pool.take(&mut slow, 5, 3);
    let rest = pool.draw(&mut slow, 3);
    let more = pool.draw(&mut slow, 1);
    Ok(
        seen == 5
            && drawn == Ok(())
            && raced
                == Err(DrawFault::Raced {
                    wanted: 5,
                    found: 3,
                })
            && rest == Ok(())
            && more == Err(DrawFault::Short { seen: 0 }),
    )
}

#[test]
fn draw_races_with_a_faster_caller(rt: HostRuntime) {
    assert_eq!(rt; a_faster_caller_wins(rt.alloc()), Ok(true));
}

// A seat that comes back, and what it holds.
#[derive(Drop)]
struct Back {
    seat: Seat,
    held: u64,
    ghost holds: { seat.held ≡ held },
    ghost few: { held ≤ 4 },
}

// Draws and gives 10,000 times, and keeps some.
fn work(pool: &Pool, mut seat: Seat) -> Back
    requires pool { seat.pool ≡ pool.now }
    requires empty { seat.held ≡ 0 }
    ensures { (result.seat.pool ≡ pool.now) × (result.seat.caller ≡ seat.caller) }
{
    let mut held = 0;
    for round in 0..10_000 {
        let n = round % 6;
        match pool.draw(&mut seat, n) {
            Ok(()) => held += n,
            Err(_) => (),
        }
        let kept = held / 3;
        pool.give(&mut seat, held - kept);
        held = kept;
    }
    Back { seat, held }
}

// Two callers work at once.
fn work_both<R: Threads>(rt: &R, pool: &Pool, one: Seat, two: Seat) -> (Back, Back)
    requires pool { (one.pool ≡ pool.now) × (two.pool ≡ pool.now) }
    requires empty { (one.held ≡ 0) × (two.held ≡ 0) }
    ensures one { (result.0.seat.pool ≡ pool.now) × (result.0.seat.caller ≡ one.caller) }
    ensures two { (result.1.seat.pool ≡ pool.now) × (result.1.seat.caller ≡ two.caller) }
{
    join(
        rt,
        || -> Back
            requires { (one.pool ≡ pool.now) × (one.held ≡ 0) }
            ensures { (result.seat.pool ≡ pool.entry.now) × (result.seat.caller ≡ one.caller) }
        { work(pool, one) },
        || -> Back
            requires { (two.pool ≡ pool.now) × (two.held ≡ 0) }
            ensures { (result.seat.pool ≡ pool.entry.now) × (result.seat.caller ≡ two.caller) }
        { work(pool, two) },
    )
}

// Four callers work at once.
fn work_all<R: Threads + Sync>(
    rt: &R,
    pool: &Pool,
    seats: (Seat, Seat, Seat, Seat),
) -> ((Back, Back), (Back, Back))
    requires pool { (seats.0.pool ≡ pool.now) × (seats.1.pool ≡ pool.now) × (seats.2.pool ≡ pool.now) × (seats.3.pool ≡ pool.now) }
    requires empty { (seats.0.held ≡ 0) × (seats.1.held ≡ 0) × (seats.2.held ≡ 0) × (seats.3.held ≡ 0) }
    ensures pool { (result.0.0.seat.pool ≡ pool.now) × (result.0.1.seat.pool ≡ pool.now) × (result.1.0.seat.pool ≡ pool.now) × (result.1.1.seat.pool ≡ pool.now) }
    ensures one { result.0.0.seat.caller ≡ seats.0.caller }
    ensures two { result.0.1.seat.caller ≡ seats.1.caller }
    ensures three { result.1.0.seat.caller ≡ seats.2.caller }
    ensures four { result.1.1.seat.caller ≡ seats.3.caller }
{
    let (one, two, three, four) = seats;
    join(
        rt,
        || -> (Back, Back)
            requires { IsSync R.row × (one.pool ≡ pool.now) × (two.pool ≡ pool.now) × (one.held ≡ 0) × (two.held ≡ 0) }
            ensures { (result.0.seat.pool ≡ pool.entry.now) × (result.1.seat.pool ≡ pool.entry.now) × (result.0.seat.caller ≡ one.caller) × (result.1.seat.caller ≡ two.caller) }
        { work_both(rt, pool, one, two) },
        || -> (Back, Back)
            requires { IsSync R.row × (three.pool ≡ pool.now) × (four.pool ≡ pool.now) × (three.held ≡ 0) × (four.held ≡ 0) }
            ensures { (result.0.seat.pool ≡ pool.entry.now) × (result.1.seat.pool ≡ pool.entry.now) × (result.0.seat.caller ≡ three.caller) × (result.1.seat.caller ≡ four.caller) }
        { work_both(rt, pool, three, four) },
    )
}

// Takes a seat back. What the master holds is at most issued.
fn take_back(pool: &Pool, master: &mut Master, back: Back) -> u64
    requires { (master.old.pool ≡ pool.now) × (back.seat.pool ≡ pool.now) }
    ensures pool { (master.new.pool ≡ pool.now) × (master.new.issued ≡ master.old.issued) }
    ensures held { (master.new.held ≡ master.old.held + result) × (result ≤ 4) }
    ensures out { master.new.out ≡ without back.seat.caller master.old.out }
    ensures issued { master.new.held ≤ master.new.issued }
{
    let Back { seat, held } = back;
    pool.join(master, seat);
    held
}

// Where nobody is out, what is drained and what the master holds are all that was issued.
fn drain_all(pool: &Pool, master: &mut Master) -> u64
    requires pool { master.old.pool ≡ pool.now }
    requires nobody { master.old.out ≡ [] }
    requires issued { master.old.held ≤ master.old.issued }
    ensures all { result + master.old.held ≡ master.old.issued }
    ensures held { (master.new.pool ≡ pool.now) × (master.new.held ≡ master.old.held) }
{
    pool.drain(master)
}

// Four callers work at once on `issued` credits, and all come back. It answers the room and what the master holds then.
fn left_by_four<R: Threads + Sync>(rt: &R, alloc: Global, issued: u64) -> Result<(u64, u64), Memory>
    requires { issued < 2 ^ 63 }
    ensures { IfOk result (λ left. left.0 + left.1 ≡ issued) }
{
    let (pool, mut master) = Pool::new(alloc)?;
    pool.refill(&mut master, issued);
    let one = pool.split(&mut master, 1)?;
    let two = pool.split(&mut master, 2)?;
    let three = pool.split(&mut master, 3)?;
    let four = pool.split(&mut master, 4)?;
    let ((one, two), (three, four)) = work_all(rt, &pool, (one, two, three, four));
    let mut held = take_back(&pool, &mut master, one);
    held += take_back(&pool, &mut master, two);
    held += take_back(&pool, &mut master, three);
    held += take_back(&pool, &mut master, four);
    let room = drain_all(&pool, &mut master);
    pool.settle(&mut master, held);
    Ok((room, held))
}

// Whatever the schedule, the room and what the master holds are what was issued, once all seats are back.
#[test]
fn four_threads_leave_what_was_issued(rt: HostRuntime) -> Result<(), Fail> {
    for issued in [0, 7, 20, 1_000] {
        let (room, held) = left_by_four(&rt, rt.alloc(), issued)?;
        assert_eq!(rt; room + held, issued);
    }
    Ok(())
}
