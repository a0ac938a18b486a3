// The master of a pool.

use crate::view::View;
use std::marker::Model;

/// The master of a pool. Contracts see it as a `MasterState`: its pool, what was issued, what it holds, and the callers
/// whose seat is out.
#[derive(Drop)]
pub struct Master {
    pub(crate) token: atomic_table::Seat<(), View>,
    /// The callers whose seat is out.
    pub out: Vec<u16>,
}

impl Model for Master {
    ghost use Rattle.credit_pool.specs.States.{MasterState};

    ghost Value = { MasterState };

    ghost use Rattle.credit_pool.specs.Masters.{master_state, IsMaster};

    ghost view = { master_state };

    ghost invariant = { IsMaster };
}
