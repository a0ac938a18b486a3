// Laws of the definitions: what makes a stored index, what keeps it, and what it is without its places.

ghost use Rattle.std.specs.Prelude.{◌≡◌, ◌≤◌, ◌+◌, ◌*◌, ℕ, All, IsTrue, List, [], Option, None, map, length, take, drop};
ghost use Rattle.ubifs_base.specs.Key.{IsKey};
ghost use Rattle.ubifs_base.specs.NodeLaws.{IsBytes};
ghost use Rattle.index_tree.specs.Levels.{levelled};
ghost use Rattle.index_tree.specs.Listing.{listed};
ghost use Rattle.index_tree.specs.Order.{leaf_rank, placed};
ghost use Rattle.index_tree.specs.RangeRemoval.{within_range, outside_range, without_range};
ghost use Rattle.index_tree.specs.Rebuild.{IsIndex};
ghost use Rattle.index_tree.specs.Removal.{without, without_leaf};
ghost use Rattle.index_tree.specs.Replacement.{swapped, replaced};
ghost use Rattle.media_sys.specs.Index.{Index as AnIndexNode};
ghost use Rattle.index_tree.specs.Shape.{contents, count, fits, is_whole, node_count, shape_weight, with_leaf};
ghost use Rattle.index_tree.specs.declared.leaf.Leaf.{Leaf as ALeaf};
ghost use Rattle.media_sys.specs.SystemNode.{IsSystemNode, index};
ghost use Rattle.media_sys.specs.declared.branch.Branch.{Branch as ABranch};
ghost use Rattle.index_media.specs.Insertion.{inserted_by_keys, with_leaf_by_keys};
ghost use Rattle.index_media.specs.InsertionSound.{AreKeys};
ghost use Rattle.index_media.specs.KeyedKeys.{AreKeysBounded};
ghost use Rattle.index_media.specs.KeyedRange.{pruned_by_keys, without_range_by_keys};
ghost use Rattle.index_media.specs.KeyedRemoval.{removed_by_keys, without_leaf_by_keys, replaced_by_keys};
ghost use Rattle.index_media.specs.Keys.{AreBounded};
ghost use Rattle.index_media.specs.KeyedRow.{KeyedRow, bare, all_clean, HaveFirstKeys};
ghost use Rattle.index_media.specs.PlacedRow.{Stretch, stretch_of, PlacedRow, ended, node_at, plain, branches_of, all_nodes, lebs_of, node_end, bytes_taken, is_apart_from, are_disjoint};
ghost use Rattle.index_media.specs.Stored.{IsIndexNodeAt, AreStored, IsStoredIndex, AreChangedAt};
ghost use Rattle.index_media.specs.StoredList.{StoredNode, as_listed, stored_list};

use media_sys::one_node;

/// Contents that agree on the LEBs of an index hold the same index.
pub fn an_index_depends_on_its_lebs_alone()
    ensures { (old new : ℕ → List ℕ) (fanout : ℕ) (root : ABranch) (placed : PlacedRow) → All (λ k. new k ≡ old k) (lebs_of placed)
        → IsStoredIndex old fanout root placed → IsStoredIndex new fanout root placed }
{}

/// Contents hold one index at most where a root's branch leads.
pub fn a_root_leads_to_one_index()
    ensures { (contents : ℕ → List ℕ) (fanout other : ℕ) (root : ABranch) (a b : PlacedRow) → ((k : ℕ) → IsBytes (contents k))
        → IsStoredIndex contents fanout root a → IsStoredIndex contents other root b → a ≡ b }
{
    one_node();
}

/// What is written at a free place leaves each index and each row that stands. An index node whose bytes are written stands
/// where a branch of their length leads. Behind its children, and with the branches that lead to them, it stands above them,
/// and rows of one level stand beside each other.
pub fn a_node_behind_its_children_stands()
    ensures stays { (old new : ℕ → List ℕ) (place : Stretch) (root : ABranch) (fanout : ℕ) (placed : PlacedRow) → AreChangedAt old new place
        → IsTrue (is_apart_from place placed) → IsStoredIndex old fanout root placed → IsStoredIndex new fanout root placed }
    ensures row_stays { (old new : ℕ → List ℕ) (place : Stretch) (levels : ℕ) (row : PlacedRow) → AreChangedAt old new place
        → IsTrue (is_apart_from place row) → AreStored old levels row → AreStored new levels row }
    ensures written { (contents : ℕ → List ℕ) (place : ABranch) (said : AnIndexNode) (sqnum group : ℕ) (bytes : List ℕ)
        → IsSystemNode bytes sqnum group (index said) → place.len ≡ length bytes
        → take place.len (drop place.offs (contents place.lnum)) ≡ bytes → IsIndexNodeAt contents place said }
    ensures parent { (old new : ℕ → List ℕ) (changed : Stretch) (place : ABranch) (levels : ℕ) (row : PlacedRow) → AreChangedAt old new changed
        → IsTrue (is_apart_from changed row) → AreStored old levels row
        → IsIndexNodeAt new place (record { level = levels; branches = branches_of row })
        → AreStored new (levels + 1) (node_at place row ended) }
    ensures beside { (contents : ℕ → List ℕ) (levels : ℕ) (branch : ABranch) (row rest : PlacedRow) → AreStored contents levels (node_at branch row ended)
        → AreStored contents levels rest → AreStored contents levels (node_at branch row rest) }
    ensures disjoint { (place : ABranch) (row : PlacedRow) → IsTrue (is_apart_from (stretch_of place) row) → IsTrue (are_disjoint (all_nodes row))
        → IsTrue (are_disjoint (all_nodes (node_at place row ended))) }
{}

/// So is an index made: its root is written behind its children, whose keys lie between those of branches.
pub fn a_root_behind_its_children_makes_an_index()
    ensures { (old new : ℕ → List ℕ) (changed : Stretch) (root : ABranch) (fanout levels : ℕ) (row : PlacedRow) → AreChangedAt old new changed
        → IsTrue (is_apart_from changed row) → AreStored old levels row
        → IsIndexNodeAt new root (record { level = levels; branches = branches_of row })
        → IsTrue (fits fanout (plain (node_at root row ended))) → AreBounded 0 None (node_at root row ended)
        → IsStoredIndex new fanout root (node_at root row ended) }
{}

/// A stored index has as many nodes as without its places, each as long as its branches ask, and takes at most as many bytes
/// as that many full nodes.
pub fn an_index_takes_the_bytes_of_its_nodes()
    ensures len { (contents : ℕ → List ℕ) (branch : ABranch) (said : AnIndexNode) → IsIndexNodeAt contents branch said
        → branch.len ≡ 28 + 20 * length said.branches }
    ensures number { (placed : PlacedRow) → length (all_nodes placed) ≡ node_count (plain placed) }
    ensures most { (contents : ℕ → List ℕ) (fanout : ℕ) (root : ABranch) (placed : PlacedRow) → IsStoredIndex contents fanout root placed
        → bytes_taken (all_nodes placed) ≤ node_count (plain placed) * node_end (28 + 20 * fanout) }
{}

/// Without its places a stored index is an index, and its nodes, in the order of their list, say the list of its nodes.
pub fn a_stored_index_is_an_index()
    ensures index { (contents : ℕ → List ℕ) (fanout : ℕ) (root : ABranch) (placed : PlacedRow) → IsStoredIndex contents fanout root placed
        → IsIndex fanout (plain placed) }
    ensures listed { (contents : ℕ → List ℕ) (fanout : ℕ) (root : ABranch) (placed : PlacedRow) → IsStoredIndex contents fanout root placed
        → map (λ one. as_listed one.said) (stored_list placed) ≡ listed (plain placed) }
    ensures there { (contents : ℕ → List ℕ) (fanout : ℕ) (root : ABranch) (placed : PlacedRow) → IsStoredIndex contents fanout root placed
        → All (λ one. IsIndexNodeAt contents one.branch one.said) (stored_list placed) }
{}

/// Where each branch's key is its first leaf's, an insertion by the keys of branches makes the shape that one by first leaves
/// makes. Where keys lie between those of branches, it puts the leaf behind all whose key isn't
/// greater, and keys lie so again. A row that stands on a medium is the same without its places, whichever way it is kept.
pub fn an_insertion_goes_by_the_keys_of_branches()
    ensures same { (fanout : ℕ) (new : ALeaf) (row : KeyedRow) → HaveFirstKeys row
        → bare (with_leaf_by_keys fanout new row) ≡ with_leaf fanout new (bare row) }
    ensures contents { (fanout : ℕ) (new : ALeaf) (least : ℕ) (most : Option ℕ) (row : KeyedRow) → AreKeysBounded least most row
        → contents (bare (with_leaf_by_keys fanout new row)) ≡ placed new (contents (bare row)) }
    ensures keys { (fanout : ℕ) (new : ALeaf) (row : KeyedRow) → 1 ≤ fanout → AreKeysBounded 0 None row → AreKeysBounded 0 None (with_leaf_by_keys fanout new row) }
    ensures bounded { (least : ℕ) (most : Option ℕ) (row : PlacedRow) → AreBounded least most row → AreKeysBounded least most (all_clean row) }
    ensures clean { (row : PlacedRow) → bare (all_clean row) ≡ plain row }
{}

/// An insertion into a row of an index keeps what its nodes are: they have 1 to fanout children, leaves stand on the lowest
/// level, and keys are keys. Where each branch's key is its first leaf's, it is so again, and the weight of an index grows by at
/// most 1.
pub fn an_insertion_keeps_what_nodes_are()
    ensures children { (fanout : ℕ) (new : ALeaf) (row : KeyedRow) → 3 ≤ fanout → IsTrue (fits fanout (bare row))
        → IsTrue (fits fanout (bare (inserted_by_keys fanout new row))) }
    ensures levels { (fanout levels : ℕ) (new : ALeaf) (row : KeyedRow) → IsTrue (fits fanout (bare row)) → (count (bare row) ≡ 0 → levels ≡ 0)
        → IsTrue (levelled levels (bare row)) → IsTrue (levelled levels (bare (inserted_by_keys fanout new row))) }
    ensures keys { (fanout : ℕ) (new : ALeaf) (row : KeyedRow) → IsKey new.key → AreKeys row → AreKeys (inserted_by_keys fanout new row) }
    ensures first_keys { (fanout : ℕ) (new : ALeaf) (least : ℕ) (most : Option ℕ) (row : KeyedRow) → 1 ≤ fanout → AreKeysBounded least most row
        → HaveFirstKeys row → HaveFirstKeys (with_leaf_by_keys fanout new row) }
    ensures one_heavier { (fanout : ℕ) (new : ALeaf) (row : KeyedRow) → 3 ≤ fanout → IsTrue (is_whole (bare row)) → IsTrue (fits fanout (bare row))
        → shape_weight fanout (bare (with_leaf_by_keys fanout new row)) ≤ shape_weight fanout (bare row) + 1 }
{}

/// A removal makes the shape that it makes without keys and places, and takes the leaf out of an index's leaves. Keys lie between
/// those of branches again, though a branch's key may now be lower than its first leaf's.
pub fn a_removal_leaves_the_keys_of_branches()
    ensures same { (gone : ALeaf) (row : KeyedRow) → bare (without_leaf_by_keys gone row) ≡ without_leaf gone (bare row) }
    ensures contents { (gone : ALeaf) (row : KeyedRow) → count (bare row) ≤ 1 → contents (bare (without_leaf_by_keys gone row)) ≡ without gone (contents (bare row)) }
    ensures keys { (gone : ALeaf) (row : KeyedRow) → AreKeysBounded 0 None row → AreKeysBounded 0 None (without_leaf_by_keys gone row) }
{}

/// A removal from a row of an index keeps what its nodes are: they have 1 to fanout children, leaves stand on the lowest level,
/// and keys are keys and lie between those of branches. The row gets no more siblings.
pub fn a_removal_keeps_what_nodes_are()
    ensures children { (fanout : ℕ) (gone : ALeaf) (row : KeyedRow) → IsTrue (fits fanout (bare row)) → IsTrue (fits fanout (bare (removed_by_keys gone row))) }
    ensures number { (gone : ALeaf) (row : KeyedRow) → count (bare (removed_by_keys gone row)) ≤ count (bare row) }
    ensures levels { (levels : ℕ) (gone : ALeaf) (row : KeyedRow) → IsTrue (levelled levels (bare row)) → IsTrue (levelled levels (bare (removed_by_keys gone row))) }
    ensures bounded { (gone : ALeaf) (least : ℕ) (most : Option ℕ) (row : KeyedRow) → AreKeysBounded least most row → AreKeysBounded least most (removed_by_keys gone row) }
    ensures keys { (gone : ALeaf) (row : KeyedRow) → AreKeys row → AreKeys (removed_by_keys gone row) }
    ensures whole { (gone : ALeaf) (row : KeyedRow) → AreKeys row → AreKeys (without_leaf_by_keys gone row) }
{}

/// A replacement makes the shape that it makes without keys and places, and puts the leaf at the place of the old one. By a leaf of
/// the same key it leaves keys between those of branches.
pub fn a_replacement_leaves_the_keys_of_branches()
    ensures same { (old new : ALeaf) (row : KeyedRow) → bare (replaced_by_keys old new row) ≡ replaced old new (bare row) }
    ensures contents { (old new : ALeaf) (row : KeyedRow) → contents (bare (replaced_by_keys old new row)) ≡ swapped old new (contents (bare row)) }
    ensures keys { (old new : ALeaf) (least : ℕ) (most : Option ℕ) (row : KeyedRow) → leaf_rank new ≡ leaf_rank old → AreKeysBounded least most row
        → AreKeysBounded least most (replaced_by_keys old new row) }
{}

/// A replacement in a row of an index keeps what its nodes are: they have as many children, leaves stand on the lowest level, and
/// keys are keys.
pub fn a_replacement_keeps_what_nodes_are()
    ensures children { (fanout : ℕ) (old new : ALeaf) (row : KeyedRow) → IsTrue (fits fanout (bare row)) → IsTrue (fits fanout (bare (replaced_by_keys old new row))) }
    ensures number { (old new : ALeaf) (row : KeyedRow) → count (bare (replaced_by_keys old new row)) ≡ count (bare row) }
    ensures levels { (levels : ℕ) (old new : ALeaf) (row : KeyedRow) → IsTrue (levelled levels (bare row)) → IsTrue (levelled levels (bare (replaced_by_keys old new row))) }
    ensures keys { (old new : ALeaf) (row : KeyedRow) → IsKey new.key → AreKeys row → AreKeys (replaced_by_keys old new row) }
{}

/// A removal of a range of keys makes the shape that it makes without keys and places, and takes the range's leaves out of an
/// index's. Keys lie between those of branches again. A row below which no leaf of the range stands keeps its places.
pub fn a_range_removal_leaves_the_keys_of_branches()
    ensures same { (from to : ℕ) (row : KeyedRow) → bare (without_range_by_keys from to row) ≡ without_range from to (bare row) }
    ensures contents { (from to : ℕ) (row : KeyedRow) → count (bare row) ≤ 1
        → contents (bare (without_range_by_keys from to row)) ≡ outside_range from to (contents (bare row)) }
    ensures keys { (from to : ℕ) (row : KeyedRow) → AreKeysBounded 0 None row → AreKeysBounded 0 None (without_range_by_keys from to row) }
    ensures untouched { (fanout from to : ℕ) (row : KeyedRow) → IsTrue (fits fanout (bare row)) → within_range from to (contents (bare row)) ≡ []
        → pruned_by_keys from to row ≡ row }
{}

/// A removal of a range from a row of an index keeps what its nodes are: they have 1 to fanout children, leaves stand on the
/// lowest level, and keys are keys and lie between those of branches. The row gets no more siblings.
pub fn a_range_removal_keeps_what_nodes_are()
    ensures children { (fanout from to : ℕ) (row : KeyedRow) → IsTrue (fits fanout (bare row)) → IsTrue (fits fanout (bare (pruned_by_keys from to row))) }
    ensures number { (from to : ℕ) (row : KeyedRow) → count (bare (pruned_by_keys from to row)) ≤ count (bare row) }
    ensures levels { (levels from to : ℕ) (row : KeyedRow) → IsTrue (levelled levels (bare row)) → IsTrue (levelled levels (bare (pruned_by_keys from to row))) }
    ensures bounded { (from to least : ℕ) (most : Option ℕ) (row : KeyedRow) → AreKeysBounded least most row → AreKeysBounded least most (pruned_by_keys from to row) }
    ensures keys { (from to : ℕ) (row : KeyedRow) → AreKeys row → AreKeys (pruned_by_keys from to row) }
    ensures whole { (from to : ℕ) (row : KeyedRow) → AreKeys row → AreKeys (without_range_by_keys from to row) }
{}
