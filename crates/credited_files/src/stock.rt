// A caller's stock of credits.

ghost use Rattle.std.specs.Prelude.{◌≡◌, ◌⊎◌, ◌+◌, ◌≤◌, false, is_some, length};
ghost use Rattle.fs_model.specs.Files.{pages_of};
ghost use Rattle.fs_model.specs.Legal.{pages_in};
ghost use Rattle.credited_files.specs.States.{StockState};
ghost use Rattle.credited_files.specs.Stocks.{SeatFits};

use credit_pool::{Pool, Seat};
use fs_model::Op;
use std::marker::Model;
use told_value::{Told, tell_of};

// How many credits a seat holds at most.
const MOST: u64 = 17;

/// What a caller brings to a call: the credits that it drew, at its seat. Contracts see it as a `StockState`: its pool, whose it
/// is, how many credits it holds, and whether it has a seat.
#[derive(Drop)]
pub struct Stock {
    pub(crate) pool: Told<Pool>,
    pub(crate) seat: Option<Seat>,
    pub(crate) caller: u16,
    pub(crate) held: u64,
}

impl Model for Stock {
    ghost use Rattle.credited_files.specs.States.{StockState};

    ghost Value = { StockState };

    ghost use Rattle.credited_files.specs.Stocks.{stock_state, IsStock};

    ghost view = { stock_state };

    ghost invariant = { IsStock };
}

impl Stock {
    /// A stock with no credit and no seat. Its caller gets a seat with its first call.
    pub fn new(pool: &Pool, caller: u16) -> Stock
        ensures { result ≡ record { pool = pool.now; caller = caller; held = 0; seated = false } }
    {
        Stock {
            pool: tell_of(pool),
            seat: None,
            caller,
            held: 0,
        }
    }

    /// The stock, in place of which one is left with no credit and no seat.
    pub fn take(&mut self) -> Stock
        ensures taken { result ≡ self.old }
        ensures left { (self.new.pool ≡ self.old.pool) × (self.new.caller ≡ self.old.caller) × (self.new.held ≡ 0) × (self.new.seated ≡ false) }
    {
        let seat = self.seat.take();
        let held = self.held;
        self.held = 0;
        Stock {
            pool: tell_of(&self.pool),
            seat,
            caller: self.caller,
            held,
        }
    }

    /// Draws a credit for each page that the operation's words touch, if the pool has so many. It needs no lock, and doesn't try
    /// again. The seat stays.
    pub fn draw(self, pool: &Pool, op: &Op) -> Stock
        requires { (self.pool ≡ pool.now) × (self.held ≡ 0) }
        ensures held { (result.held ≡ 0) ⊎ (result.held ≡ pages_in op.now) }
        ensures same { (result.pool ≡ self.pool) × (result.caller ≡ self.caller) × (result.seated ≡ self.seated) }
    {
        let Stock {
            pool: of,
            seat,
            caller,
            held: _,
        } = self;
        let (seat, held) = drawn(pool, caller, seat, pages_touched(op));
        Stock {
            pool: of,
            seat,
            caller,
            held,
        }
    }

    /// Gives all that was drawn back to the pool.
    pub fn give_back(self, pool: &Pool) -> Stock
        requires { self.pool ≡ pool.now }
        ensures { (result.pool ≡ self.pool) × (result.caller ≡ self.caller) × (result.held ≡ 0) × (result.seated ≡ self.seated) }
    {
        let Stock {
            pool: of,
            seat,
            caller,
            held,
        } = self;
        let seat = given_back(pool, caller, seat, held);
        Stock {
            pool: of,
            seat,
            caller,
            held: 0,
        }
    }
}

// A seat that has drawn so many credits, or none if the pool has fewer, and how many it has drawn.
fn drawn(pool: &Pool, caller: u16, seat: Option<Seat>, n: u64) -> (Option<Seat>, u64)
    requires { SeatFits pool.now caller 0 seat }
    ensures fits { SeatFits pool.now caller result.1 result.0 }
    ensures all { (result.1 ≡ 0) ⊎ (result.1 ≡ n) }
    ensures seated { is_some result.0 ≡ is_some seat }
{
    match seat {
        Some(mut seat) => {
            if n <= MOST && pool.draw(&mut seat, n).is_ok() {
                return (Some(seat), n);
            }
            (Some(seat), 0)
        }
        None => (None, 0),
    }
}

// A seat that has given all back.
fn given_back(pool: &Pool, caller: u16, seat: Option<Seat>, held: u64) -> Option<Seat>
    requires { SeatFits pool.now caller held seat }
    ensures fits { SeatFits pool.now caller 0 result }
    ensures seated { is_some result ≡ is_some seat }
{
    match seat {
        Some(mut seat) => {
            pool.give(&mut seat, held);
            Some(seat)
        }
        None => None,
    }
}

// How many pages the operation's words touch.
pub(crate) fn pages_touched(op: &Op) -> u64
    ensures { result ≡ pages_in op.now }
{
    match op {
        Op::Write { offs, len, .. } => pages_from(*offs, *len),
        _ => 0,
    }
}

// How many pages these bytes touch.
fn pages_from(offs: u64, len: u32) -> u64
    ensures { result ≡ length (pages_of offs len) }
{
    if len == 0 {
        return 0;
    }
    (offs % 4096 + u64::from(len) - 1) / 4096 + 1
}
