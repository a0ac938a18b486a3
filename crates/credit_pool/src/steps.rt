// The rule of the pool's word, and what each kind of step on it tells.

use crate::view::View;
use atomic_table::{Join, Play, Split, TableRule};

/// The rule: the room plus what all seats and the master hold is what was issued.
pub struct Credits;

impl TableRule<(), View, ()> for Credits {
    ghost use Rattle.credit_pool.specs.Rule.{Keeps, opened};

    ghost holds = { λ _. Keeps };

    ghost first = { λ _. opened };
}

/// A load by a seat.
pub struct Look;

impl Play<(), View> for Look {
    ghost use Rattle.credit_pool.specs.Steps.{Looks};

    ghost then = { Looks };
}

/// An exchange of the room for less.
pub struct Take;

impl Play<(), View> for Take {
    ghost use Rattle.credit_pool.specs.Steps.{Takes};

    ghost then = { Takes };
}

/// An addition of credits that the seat gives back.
pub struct Give;

impl Play<(), View> for Give {
    ghost use Rattle.credit_pool.specs.Steps.{Gives};

    ghost then = { Gives };
}

/// An addition of new credits.
pub struct Refill;

impl Play<(), View> for Refill {
    ghost use Rattle.credit_pool.specs.Steps.{Refills};

    ghost then = { Refills };
}

/// A swap of the room for nothing.
pub struct Drain;

impl Play<(), View> for Drain {
    ghost use Rattle.credit_pool.specs.Steps.{Drains};

    ghost then = { Drains };
}

/// The end of credits that the master holds. It names their number, and leaves the room.
pub struct Settle;

impl Play<(), View> for Settle {
    ghost use Rattle.credit_pool.specs.Steps.{Settles};

    ghost then = { Settles };
}

/// The naming of the caller who gets the next seat. It leaves the room.
pub struct Call;

impl Play<(), View> for Call {
    ghost use Rattle.credit_pool.specs.Steps.{Calls};

    ghost then = { Calls };
}

/// A load by the master, after it took a seat's credits.
pub struct Weigh;

impl Play<(), View> for Weigh {
    ghost use Rattle.credit_pool.specs.Steps.{Weighs};

    ghost then = { Weighs };
}

/// A new seat, for the caller who was named.
pub struct Parts;

impl Split<View> for Parts {
    ghost use Rattle.credit_pool.specs.Steps.{with_seat_out, new_seat};

    ghost left = { with_seat_out };

    ghost right = { new_seat };
}

/// The end of a seat, whose credits the master takes.
pub struct Returns;

impl Join<View> for Returns {
    ghost use Rattle.credit_pool.specs.Steps.{with_seat_back, spent_seat};

    ghost both = { with_seat_back };

    ghost spent = { spent_seat };
}
