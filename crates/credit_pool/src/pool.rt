// The pool.

ghost use Rattle.std.specs.Prelude.{◌≡◌, ◌≢◌, ℕ, ◌+◌, ◌-◌, ◌*◌, ◌^◌, ◌<◌, ◌≤◌, ◌++◌, [], ◌∷◌, length, Contains, OnOk, OnErr, IfOk, IfErr};
ghost use Rattle.credit_pool.specs.States.{looked, holding, without, MasterState, SeatState};
ghost use Rattle.credit_pool.specs.Rule.{Accounts};
ghost use Rattle.credit_pool.specs.Draws.{drawn, TakeFails, DrawFails};

use crate::fault::DrawFault;
use crate::master::Master;
use crate::seat::Seat;
use crate::steps::{Call, Credits, Drain, Give, Look, Parts, Refill, Returns, Settle, Take, Weigh};
use crate::view::View;
use atomic_table::Table;
use std::alloc::Global;
use std::marker::Model;
use ubifs_base::Memory;

/// The credits that nobody holds, on a word that all callers share. Contracts see it as which pool it is.
///
/// A credit stands for the room on the volume that a dirty page needs when it is written back, granted in advance (Hunter
/// 2008, on budgeting). No call waits for another, and each seat and master is of the pool that it is used with.
#[derive(Drop)]
pub struct Pool {
    table: Table<(), View, (), Credits, Global>,
}

impl Model for Pool {
    ghost use Rattle.std.specs.Prelude.{◌≡◌};
    ghost use Rattle.atomic_table.specs.Seated.{TableId, table_id_coded};

    ghost Value = { TableId };

    ghost coded = { table_id_coded };

    ghost view = { λ p. p.table.shared.table_id };

    ghost invariant = { λ p. p.table.shared.table_id.words ≡ 1 };
}

impl Pool {
    /// A pool in which nothing is issued, with its master.
    pub fn new(alloc: Global) -> Result<(Pool, Master), Memory>
        ensures { IfOk result (λ made. made.1 ≡ record { pool = made.0; issued = 0; held = 0; out = [] }) }
    {
        let (table, token) = Table::of_words(alloc, &[0], &())?;
        Ok((
            Pool { table },
            Master {
                token,
                out: Vec::new(alloc),
            },
        ))
    }

    /// The room: how many credits nobody holds at this moment.
    pub fn look(&self, seat: &mut Seat) -> u64
        requires { seat.old.pool ≡ self.now }
        ensures { seat.new ≡ looked result seat.old }
    {
        self.table.shared.load::<Look>(&mut seat.token, 0)
    }

    /// Draws `n` credits by one exchange, where the room is `seen`.
    ///
    /// `Raced` exactly where the exchange found another room; then nothing changes.
    pub fn take(&self, seat: &mut Seat, seen: u64, n: u64) -> Result<(), DrawFault>
        requires pool { seat.old.pool ≡ self.now }
        requires enough { n ≤ seen }
        requires limit { seat.old.held + n ≤ 17 }
        ensures ok { OnOk result (seat.new ≡ drawn seen n seat.old) }
        ensures raced { IfErr result (TakeFails seen seat.old seat.new) }
        ensures same { (seat.new.pool ≡ self.now) × (seat.new.caller ≡ seat.old.caller) }
        ensures unchanged { OnErr result (seat.new.held ≡ seat.old.held) }
    {
        let found = self
            .table
            .shared
            .compare_exchange::<Take>(&mut seat.token, 0, seen, seen - n);
        if found == seen {
            Ok(())
        } else {
            Err(DrawFault::Raced {
                wanted: seen,
                found,
            })
        }
    }

    /// Draws `n` credits: looks once, and takes once where the look saw enough. It doesn't try again.
    ///
    /// `Short` exactly where the look saw fewer, and `Raced` exactly where the exchange found another room than the look.
    /// Then nothing changes.
    pub fn draw(&self, seat: &mut Seat, n: u64) -> Result<(), DrawFault>
        requires pool { seat.old.pool ≡ self.now }
        requires limit { seat.old.held + n ≤ 17 }
        ensures enough { OnOk result (n ≤ seat.new.found) }
        ensures ok { OnOk result (seat.new ≡ drawn seat.new.found n (looked seat.new.found seat.old)) }
        ensures err { IfErr result (DrawFails n seat.old seat.new) }
        ensures same { (seat.new.pool ≡ self.now) × (seat.new.caller ≡ seat.old.caller) }
        ensures unchanged { OnErr result (seat.new.held ≡ seat.old.held) }
    {
        let seen = self.look(seat);
        if seen < n {
            return Err(DrawFault::Short { seen });
        }
        self.take(seat, seen, n)
    }

    /// Gives `n` credits of the seat back to the room.
    pub fn give(&self, seat: &mut Seat, n: u64)
        requires pool { seat.old.pool ≡ self.now }
        requires held { n ≤ seat.old.held }
        ensures { seat.new ≡ holding (seat.old.held - n) seat.old }
    {
        self.table.shared.fetch_add::<Give>(&mut seat.token, 0, n);
    }

    /// Issues `n` credits, and puts them into the room.
    pub fn refill(&self, master: &mut Master, n: u64)
        requires pool { master.old.pool ≡ self.now }
        requires limit { master.old.issued + n < 2 ^ 63 }
        ensures { master.new ≡ record { pool = self.now; issued = master.old.issued + n; held = master.old.held; out = master.old.out } }
    {
        self.table
            .shared
            .fetch_add::<Refill>(&mut master.token, 0, n);
    }

    /// Takes all credits out of the room, and answers how many. They aren't issued any more.
    pub fn drain(&self, master: &mut Master) -> u64
        requires { master.old.pool ≡ self.now }
        ensures drained { master.new ≡ record { pool = self.now; issued = master.old.issued - result; held = master.old.held; out = master.old.out } }
        ensures kept { Accounts result master.old.issued master.old.held master.old.out }
        ensures issued { result + master.old.held ≤ master.old.issued }
        ensures left { master.new.issued ≤ master.new.held + 17 * length master.new.out }
    {
        self.table.shared.swap::<Drain>(&mut master.token, 0, 0)
    }

    /// Ends `n` credits that the master holds. They aren't issued any more.
    pub fn settle(&self, master: &mut Master, n: u64)
        requires pool { master.old.pool ≡ self.now }
        requires held { n ≤ master.old.held }
        ensures settled { master.new ≡ record { pool = self.now; issued = master.old.issued - n; held = master.old.held - n; out = master.old.out } }
        ensures issued { n ≤ master.old.issued }
    {
        self.table
            .shared
            .compare_exchange::<Settle>(&mut master.token, 0, n, n);
    }

    /// A seat for this caller, which holds nothing.
    ///
    /// After `Memory` all is as before.
    pub fn split(&self, master: &mut Master, caller: u16) -> Result<Seat, Memory>
        requires pool { master.old.pool ≡ self.now }
        requires one { ¬ Contains master.old.out caller }
        ensures seat { IfOk result (λ seat. seat ≡ record { pool = self.now; caller = caller; held = 0; found = 0; count = 0 }) }
        ensures out { OnOk result (master.new ≡ record { pool = self.now; issued = master.old.issued; held = master.old.held; out = master.old.out ++ caller ∷ [] }) }
        ensures err { OnErr result (master.new ≡ master.old) }
    {
        master.out.reserve(1)?;
        let shared = &self.table.shared;
        shared.compare_exchange::<Call>(&mut master.token, 0, caller as u64, caller as u64);
        let token = shared.split_seat::<Parts>(&mut master.token);
        master.out.push_reserved(caller);
        Ok(Seat { token, caller })
    }

    /// Ends the seat, and moves the credits that it holds to the master.
    pub fn join(&self, master: &mut Master, seat: Seat)
        requires pool { master.old.pool ≡ self.now }
        requires seat { seat.pool ≡ self.now }
        ensures joined { master.new ≡ record { pool = self.now; issued = master.old.issued; held = master.old.held + seat.held; out = without seat.caller master.old.out } }
        ensures gone { ¬ Contains master.new.out seat.caller }
        ensures issued { master.new.held ≤ master.new.issued }
    {
        let Seat { token, caller } = seat;
        let shared = &self.table.shared;
        shared.join_seat::<Returns>(&mut master.token, token);
        shared.load::<Weigh>(&mut master.token, 0);
        leave_out(&mut master.out, caller);
    }
}

// The callers but this one.
fn leave_out(out: &mut Vec<u16>, caller: u16)
    ensures { out.new.items ≡ without caller out.old.items }
{
    out.retain(|c| *c != caller);
}
