// Leaves in order of place.

ghost use Rattle.std.specs.Prelude.{◌≡◌, IfOk};
ghost use Rattle.std.specs.List.{AllByRecursion};
ghost use Rattle.std.specs.List.Sorted.{IsPermutation};
ghost use Rattle.leaf_check.specs.Overlaps.{AreLeavesInOrder, IsNarrow, place_rank as rank_of};

use index_tree::Leaf;
use std::alloc::{AllocError, Global};

/// These leaves in order of LEB, offset and length. The error is want of memory.
pub(crate) fn in_order(alloc: Global, leaves: &[Leaf]) -> Result<Vec<Leaf>, AllocError>
    ensures same { IfOk result (λ ordered. IsPermutation leaves.now ordered.items) }
    ensures order { IfOk result (λ ordered. AreLeavesInOrder ordered.items) }
    ensures narrow { IfOk result (λ ordered. AllByRecursion IsNarrow ordered.items) }
{
    let mut ordered = copied(alloc, leaves)?;
    put_in_order(&mut ordered);
    Ok(ordered)
}

// The same leaves.
fn copied(alloc: Global, leaves: &[Leaf]) -> Result<Vec<Leaf>, AllocError>
    ensures same { IfOk result (λ copies. copies.items ≡ leaves.now) }
    ensures narrow { IfOk result (λ copies. AllByRecursion IsNarrow copies.items) }
{
    let mut copies = Vec::new(alloc);
    let mut left = leaves;
    'copying: while let Some((leaf, rest)) = left.split_first() {
        copies.push(same(*leaf))?;
        left = rest;
    }
    Ok(copies)
}

// A leaf's numbers have 32 bits.
fn same(leaf: Leaf) -> Leaf
    ensures same { result ≡ leaf }
    ensures narrow { IsNarrow result }
{
    leaf
}

/// Puts leaves in order of LEB, offset and length.
pub(crate) fn put_in_order(leaves: &mut Vec<Leaf>)
    ensures same { IsPermutation leaves.old.items leaves.new.items }
    ensures order { AreLeavesInOrder leaves.new.items }
{
    leaves.sort_unstable_by_key(|leaf| place_rank(leaf));
}

/// The number by which leaves are put in order.
pub(crate) fn place_rank(leaf: &Leaf) -> u128
    ensures { result ≡ rank_of leaf.now }
{
    leaf.lnum as u128 * (1 << 64) + leaf.offs as u128 * (1 << 32) + leaf.len as u128
}
