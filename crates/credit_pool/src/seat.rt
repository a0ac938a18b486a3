// A caller's seat.

use crate::view::View;
use std::marker::Model;

/// A caller's seat at a pool. Contracts see it as a `SeatState`: its pool and caller, what it holds, the room that its
/// last load or exchange found, and the count of these.
///
/// It holds at most 17 credits. Where it is dropped and not joined, they stay issued, and its caller stays out.
#[derive(Drop)]
pub struct Seat {
    pub(crate) token: atomic_table::Seat<(), View>,
    pub(crate) caller: u16,
}

impl Model for Seat {
    ghost use Rattle.credit_pool.specs.States.{SeatState};

    ghost Value = { SeatState };

    ghost use Rattle.credit_pool.specs.Seats.{seat_state, IsSeat};

    ghost view = { seat_state };

    ghost invariant = { IsSeat };
}
