// What stays where nodes are added, and where a node gets its place.

ghost use Rattle.std.specs.Prelude.{◌≡◌, ◌<◌, true, ℕ, List, Option, Some, length, slice_get};
ghost use Rattle.index_media.specs.Clean.{is_clean_row, placed_of};
ghost use Rattle.index_media.specs.KeyedRow.{KeyedRow, all_clean, bare};
ghost use Rattle.node_table.specs.Dirty.{dirty_below};
ghost use Rattle.table_nodes.specs.NodeView.{tree_at, IsRootIn};
ghost use Rattle.node_table.specs.Placing.{IsPlacedRow, KeepsPlaces, without_number};
ghost use Rattle.table_nodes.specs.Links.{AreNodesAdded};
ghost use Rattle.node_table.specs.Staging.{IsSoundRoot};
ghost use Rattle.table_nodes.specs.declared.node.NodePlace.{NodePlace as APlace};
ghost use Rattle.table_nodes.specs.declared.node.Root.{Root as ARoot};
ghost use Rattle.table_nodes.specs.declared.node.TableNode.{TableNode as ANode};

/// A root of a table is one of the table with more nodes, a sound one is sound there, the same index stands below it,
/// and the same nodes of it are dirty.
pub fn roots_stay()
    ensures there { (old new : List ANode) (root : Option ARoot) → AreNodesAdded old new → IsRootIn old root → IsRootIn new root }
    ensures sound { (old new : List ANode) (root : Option ARoot) → AreNodesAdded old new → IsSoundRoot old root → IsSoundRoot new root }
    ensures tree { (old new : List ANode) (root : Option ARoot) → AreNodesAdded old new → IsRootIn old root → tree_at new root ≡ tree_at old root }
    ensures dirty { (old new : List ANode) (root : Option ARoot) → AreNodesAdded old new → IsRootIn old root → dirty_below new root ≡ dirty_below old root }
{}

/// Where all of a row is clean, it is a placed row: each of its nodes has a place.
pub fn clean_rows_are_placed()
    ensures { (row : KeyedRow) → is_clean_row row ≡ true → row ≡ all_clean (placed_of row) }
{}

/// A place that is given changes no shape and no leaf, and no node that has a place; and so do several, one after another.
pub fn places_are_kept()
    ensures shape { (old new : KeyedRow) → KeepsPlaces old new → bare new ≡ bare old }
    ensures given { (place : APlace) (below old new : KeyedRow) → IsPlacedRow place below old new → KeepsPlaces old new }
    ensures none { (row : KeyedRow) → KeepsPlaces row row }
    ensures both { (first second third : KeyedRow) → KeepsPlaces first second → KeepsPlaces second third → KeepsPlaces first third }
    ensures fewer { (number : ℕ) (numbers : List ℕ) → slice_get numbers 0 ≡ Some number → length (without_number number numbers) < length numbers }
{}
