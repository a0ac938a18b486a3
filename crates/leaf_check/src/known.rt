// Leaves that are known to be intact, beside others, both in order of place.

ghost use Rattle.std.specs.Prelude.{◌≡◌, ◌∷◌, ◌++◌, ◌↔◌, IsTrue, List};
ghost use Rattle.index_tree.specs.declared.leaf.Leaf.{Leaf as ALeaf};

use crate::order::place_rank;
use index_tree::Leaf;

/// Those of some leaves that are left behind the ones before a leaf's place.
pub(crate) fn from_place<'a>(known: &'a [Leaf], leaf: &Leaf) -> &'a [Leaf]
    ensures { (before : List ALeaf) × (known.now ≡ before ++ result.now) }
{
    let rank = place_rank(leaf);
    let mut left = known;
    'passing: while let Some((first, rest)) = left.split_first() {
        if place_rank(first) >= rank {
            return left;
        }
        left = rest;
    }
    left
}

/// Whether a leaf is the first of some others.
pub(crate) fn is_first(known: &[Leaf], leaf: &Leaf) -> bool
    ensures { IsTrue result → (others : List ALeaf) × (known.now ≡ leaf.now ∷ others) }
{
    let Some((first, _rest)) = known.split_first() else {
        return false;
    };
    is_same(first, leaf)
}

// Whether two leaves are the same.
fn is_same(leaf: &Leaf, other: &Leaf) -> bool
    ensures { IsTrue result ↔ leaf.now ≡ other.now }
{
    *leaf == *other
}
