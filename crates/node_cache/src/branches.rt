// The branches of a node: which of them a walk passes over.

ghost use Rattle.std.specs.Prelude.{◌≡◌, ◌-◌, ◌<◌, true};
ghost use Rattle.index_media.specs.PlacedRow.{leaf_of};
ghost use Rattle.node_cache.specs.Branches.{branches_begin};

use crate::ranks::rank;
use index_tree::Leaf;
use media_sys::Branch;

/// Whether there is a first branch, of this rank or a lower one.
pub fn begin_within(branches: &[Branch], at: u128) -> bool
    ensures { result ≡ branches_begin at branches.now }
{
    match branches.split_first() {
        None => false,
        Some((branch, _)) => rank(&branch.key) <= at,
    }
}

/// Whether there is a first branch of a lower rank.
pub fn begin_below(branches: &[Branch], at: u128) -> bool
    ensures positive { result ≡ true → 0 < at }
    ensures begins { result ≡ true → branches_begin (at - 1) branches.now ≡ true }
{
    if at == 0 {
        return false;
    }
    begin_within(branches, at - 1)
}

/// The leaf to which a branch leads.
pub fn leaf_to(branch: &Branch) -> Leaf
    ensures { result ≡ leaf_of branch.now }
{
    Leaf {
        key: branch.key,
        lnum: branch.lnum,
        offs: branch.offs,
        len: branch.len,
    }
}
