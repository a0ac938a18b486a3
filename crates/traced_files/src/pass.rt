// A caller's pass.

ghost use Rattle.std.specs.Prelude.{◌≡◌};
ghost use Rattle.trace_word.specs.Knowledge.{lines_of};

use credited_files::Stock;
use std::marker::Model;

/// A caller's right to make calls, with its stock of credits, which holds none between calls. Contracts see it as a `PassState`: its trace's word and
/// its pool, and whose it is. It has the count of its calls, the place of the last, and the trace as it was seen then.
#[derive(Drop)]
pub struct Pass {
    pub(crate) ticket: trace_word::Pass,
    pub(crate) stock: Stock,
    pub caller: u16,
    pub made: u64,
    pub last: u64,
}

impl Model for Pass {
    ghost use Rattle.traced_files.specs.States.{TracedPassState};

    ghost Value = { TracedPassState };

    ghost use Rattle.traced_files.specs.Passes.{traced_pass_state, IsPassInside};

    ghost view = { traced_pass_state };

    ghost invariant = { IsPassInside };
}

impl Pass {
    /// The pass has seen as many lines of its caller as it has made calls.
    pub fn has_its_lines(&self)
        ensures { lines_of self.now.caller self.now.seen ≡ self.now.made }
    {
        let _ = &self.ticket;
    }

    /// The caller's stock, in which it draws credits for its next call.
    pub fn take_stock(&mut self) -> Stock
        ensures stock { (result.pool ≡ self.old.pool) × (result.caller ≡ self.old.caller) × (result.held ≡ 0) }
        ensures same { self.new ≡ self.old }
    {
        self.stock.take()
    }
}
