// A commit of three nodes, worked by hand.

ghost use Rattle.std.specs.Prelude.{◌≡◌, [], ◌∷◌, Some};
ghost use Rattle.index_media.specs.KeyedRow.{all_clean};
ghost use Rattle.index_media.specs.PlacedRow.{ended, leaf_at, node_at};
ghost use Rattle.index_tree.specs.declared.leaf.Leaf.{Leaf as ALeaf};
ghost use Rattle.node_table.specs.Dirty.{dirty_lists};
ghost use Rattle.table_nodes.specs.NodeView.{tree_at};
ghost use Rattle.node_table.specs.Placing.{with_place};
ghost use Rattle.table_nodes.specs.declared.node.NodePlace.{NodePlace as APlace};
ghost use Rattle.table_nodes.specs.declared.node.TableNode.{TableNode as ANode};
ghost use Rattle.ubifs_base.specs.declared.key.Key.{Key as AKey};
ghost use Rattle.index_cache.specs.Worked.{AreThreeNodes, placed_branch};

/// A root over two dirty nodes, each with one leaf: the nodes are dirty from left to right, and the root comes last. When
/// the left one has its place, the right one is next. When all three have theirs, the tree is the row that stands there.
pub fn three_nodes_are_written_from_below()
    ensures first { (x y : ALeaf) (a b : AKey) (left right top : ANode) → AreThreeNodes x y a b left right top
        → dirty_lists (left ∷ right ∷ top ∷ []) ≡ (0 ∷ []) ∷ (1 ∷ []) ∷ (0 ∷ 1 ∷ 2 ∷ []) ∷ [] }
    ensures then { (x y : ALeaf) (a b : AKey) (left right top : ANode) (p : APlace) → AreThreeNodes x y a b left right top
        → dirty_lists (with_place 0 p (left ∷ right ∷ top ∷ [])) ≡ [] ∷ (1 ∷ []) ∷ (1 ∷ 2 ∷ []) ∷ [] }
    ensures last { (x y : ALeaf) (a b key : AKey) (left right top : ANode) (p q r : APlace) → AreThreeNodes x y a b left right top
        → tree_at (with_place 2 r (with_place 1 q (with_place 0 p (left ∷ right ∷ top ∷ [])))) (Some (record { key = key; number = 2 }))
        ≡ all_clean (node_at (placed_branch key r) (node_at (placed_branch a p) (leaf_at x ended) (node_at (placed_branch b q) (leaf_at y ended) ended)) ended) }
{}
