// Bisection of a node's branches: a walk begins at the last few among which what it looks for can stand.

ghost use Rattle.std.specs.Prelude.{◌≡◌, ◌-◌, ◌<◌, ◌≤◌, true, length, drop};
ghost use Rattle.node_cache.specs.Branches.{branches_begin};

use crate::ranks::rank;
use media_sys::Branch;

// So many branches are walked from their start: a bisection of them isn't faster.
const FEW: usize = 8;

/// How many branches a walk to this rank passes over: the one behind them has that rank or a lower one.
pub fn branches_passed(branches: &[Branch], at: u128) -> usize
    ensures bound { result ≤ length branches.now }
    ensures begins { 0 < result → branches_begin at (drop result branches.now) ≡ true }
{
    let mut low = 0;
    let mut high = branches.len();
    while high - low > FEW {
        let middle = low + (high - low) / 2;
        if rank(&branches[middle].key) <= at {
            low = middle;
        } else {
            high = middle;
        }
    }
    low
}

/// How many branches of a lower rank a walk to this one passes over.
pub fn lower_branches_passed(branches: &[Branch], at: u128) -> usize
    ensures bound { result ≤ length branches.now }
    ensures positive { 0 < result → 0 < at }
    ensures begins { 0 < result → branches_begin (at - 1) (drop result branches.now) ≡ true }
{
    if at == 0 {
        return 0;
    }
    branches_passed(branches, at - 1)
}
