// Which leaves overlap.

ghost use Rattle.std.specs.Prelude.{◌≡◌, ◌+◌, ◌↔◌, IsTrue};
ghost use Rattle.index_media.specs.PlacedRow.{node_end as rounded};
ghost use Rattle.index_tree.specs.declared.leaf.Leaf.{Leaf as ALeaf};
ghost use Rattle.sound_image.specs.Wrong.{IsOneOf};
ghost use Rattle.leaf_check.specs.Overlaps.{StandsBefore, is_clear_of as is_clear_of_another, touches as touches_one, touches_last as touches_the_last, touches_next as touches_the_next};

use index_tree::Leaf;

/// Whether a leaf overlaps the one before it, or the first behind it.
pub(crate) fn touches(last: Option<Leaf>, leaf: &Leaf, behind: &[Leaf]) -> bool
    ensures { result ≡ touches_one last leaf.now behind.now }
{
    if touches_last(last, leaf) {
        return true;
    }
    touches_next(leaf, behind)
}

// Whether it overlaps the one before it.
fn touches_last(last: Option<Leaf>, leaf: &Leaf) -> bool
    ensures { result ≡ touches_the_last last leaf.now }
{
    let Some(other) = last else {
        return false;
    };
    !is_clear_of(leaf, &other)
}

// Whether it overlaps the first of those behind it.
fn touches_next(leaf: &Leaf, behind: &[Leaf]) -> bool
    ensures { result ≡ touches_the_next leaf.now behind.now }
{
    let Some((other, _rest)) = behind.split_first() else {
        return false;
    };
    !is_clear_of(leaf, other)
}

// Whether two leaves don't overlap: their LEBs differ, or one ends, rounded up to 8, before the other begins.
fn is_clear_of(leaf: &Leaf, other: &Leaf) -> bool
    ensures { result ≡ is_clear_of_another leaf.now other.now }
{
    if leaf.lnum != other.lnum {
        return true;
    }
    if node_end(leaf) <= other.offs as u64 {
        return true;
    }
    node_end(other) <= leaf.offs as u64
}

// Where a leaf's node ends, rounded up to 8.
fn node_end(leaf: &Leaf) -> u64
    ensures { result ≡ rounded (leaf.now.offs + leaf.now.len) }
{
    (leaf.offs as u64 + leaf.len as u64 + 7) / 8 * 8
}

/// Whether a leaf stands behind the first of some others.
pub(crate) fn is_past(wrong: &[Leaf], leaf: &Leaf) -> bool
    ensures { IsTrue result → (other : ALeaf) × IsOneOf other wrong.now × StandsBefore other leaf.now }
{
    let Some((first, _others)) = wrong.split_first() else {
        return false;
    };
    stands_before(first, leaf)
}

/// Whether a leaf's place comes before that of another.
pub(crate) fn stands_before(leaf: &Leaf, other: &Leaf) -> bool
    ensures { IsTrue result ↔ StandsBefore leaf.now other.now }
{
    if leaf.lnum != other.lnum {
        return leaf.lnum < other.lnum;
    }
    leaf.offs < other.offs
}
