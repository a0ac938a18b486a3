// What changes of an index keep, for whoever keeps the same shape or the same leaves in another way.

ghost use Rattle.std.specs.Prelude.{◌≡◌, ◌+◌, ◌≤◌, ℕ, false, List, []};
ghost use Rattle.index_tree.specs.Distinct.{AreDistinct};
ghost use Rattle.index_tree.specs.Keyed.{HasKey};
ghost use Rattle.index_tree.specs.Listing.{listed};
ghost use Rattle.index_tree.specs.Order.{leaf_rank, placed};
ghost use Rattle.index_tree.specs.RangeRemoval.{outside_range, without_range};
ghost use Rattle.index_tree.specs.Rebuild.{IsIndex, IsIndexOf};
ghost use Rattle.index_tree.specs.Removal.{holds, without, without_leaf};
ghost use Rattle.index_tree.specs.Replacement.{swapped, replaced};
ghost use Rattle.index_tree.specs.Shape.{Shape, contents, shape_weight, with_leaf};
ghost use Rattle.index_tree.specs.declared.leaf.Leaf.{Leaf as ALeaf};

/// Each change makes an index of the leaves that it should hold, and an index is told by the list of its nodes.
pub fn changed_indexes()
    ensures inserted { (f : ℕ) (new : ALeaf) (s : Shape) → 3 ≤ f → HasKey new → IsIndex f s
        → IsIndexOf f (placed new (contents s)) (shape_weight f s + 1) (with_leaf f new s) }
    ensures removed { (f : ℕ) (gone : ALeaf) (s : Shape) → IsIndex f s
        → IsIndexOf f (without gone (contents s)) (shape_weight f s) (without_leaf gone s) }
    ensures range_removed { (f from to : ℕ) (s : Shape) → IsIndex f s
        → IsIndexOf f (outside_range from to (contents s)) (shape_weight f s) (without_range from to s) }
    ensures replaced { (f : ℕ) (old new : ALeaf) (s : Shape) → HasKey new → leaf_rank new ≡ leaf_rank old → IsIndex f s
        → IsIndexOf f (swapped old new (contents s)) (shape_weight f s) (replaced old new s) }
    ensures told { (f : ℕ) (s t : Shape) → IsIndex f s → IsIndex f t → listed s ≡ listed t → s ≡ t }
{}

/// Leaves stay distinct if none is put that is there already; a leaf that was taken out is there no more.
pub fn distinct_leaves()
    ensures none { AreDistinct [] }
    ensures inserted { (new : ALeaf) (xs : List ALeaf) → holds new xs ≡ false → AreDistinct xs → AreDistinct (placed new xs) }
    ensures removed { (gone : ALeaf) (xs : List ALeaf) → AreDistinct xs → AreDistinct (without gone xs) }
    ensures gone { (gone : ALeaf) (xs : List ALeaf) → AreDistinct xs → holds gone (without gone xs) ≡ false }
    ensures range_removed { (from to : ℕ) (xs : List ALeaf) → AreDistinct xs → AreDistinct (outside_range from to xs) }
    ensures replaced { (old new : ALeaf) (xs : List ALeaf) → holds new xs ≡ false → AreDistinct xs → AreDistinct (swapped old new xs) }
{}
