// A caller's pass.

use crate::view::TraceView;
use atomic_table::Seat;
use fs_model::TraceLine;
use std::marker::Model;

/// A caller's pass. Contracts see it as a `PassState`: which word it is of, what it knows, whose it is, and its claim, which
/// is the number of lines that its caller may have in the trace.
///
/// No caller has two passes, and no pass is made anew.
#[derive(Drop)]
pub struct Pass {
    pub(crate) seat: Seat<TraceLine, TraceView>,
}

impl Model for Pass {
    ghost use Rattle.trace_word.specs.States.{PassState};

    ghost Value = { PassState };

    ghost use Rattle.trace_word.specs.Tokens.{pass_state, IsPass};

    ghost view = { λ a. pass_state a.seat };

    ghost invariant = { λ a. IsPass a.seat };
}
