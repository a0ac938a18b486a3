// Laws: what is laid of the live nodes of a tree has that tree, and nodes that stand in order are apart.

ghost use Rattle.std.specs.Prelude.{◌≡◌, ℕ, IsTrue, List, [], map};
ghost use Rattle.std.specs.List.{AllByRecursion, list_all};
ghost use Rattle.ubifs_base.specs.declared.raw_geometry.RawGeometry.{RawGeometry};
ghost use Rattle.index_media.specs.PlacedRow.{are_disjoint, branch_to};
ghost use Rattle.index_tree.specs.Distinct.{AreDistinct};
ghost use Rattle.media_lpt.specs.declared.lprop.Lprop.{Lprop as AnLprop};
ghost use Rattle.media_sys.specs.declared.master.Master.{Master as AMaster};
ghost use Rattle.fs_model.specs.Files.{Tree};
ghost use Rattle.fs_model.specs.Orphan.{nameless};
ghost use Rattle.fs_model.specs.Proper.{IsProper};
ghost use Rattle.leaf_map.specs.Kept.{Placed, kept_at};
ghost use Rattle.laid_image.specs.Laid.{IsLaidNode, ShowTree, leaf_of_placed, tree_of_nodes};
ghost use Rattle.tree_nodes.specs.Stored.{AreNodesOfTree, stored_tree};
ghost use Rattle.laid_tree.specs.Standing.{StandInOrder, StandsUnmarked, is_plain};

use tree_nodes::live_nodes_show_their_tree;

/// The live nodes of a proper tree show that tree under a master that says its highest inode number. If no inode has lost its last
/// name, the tree hangs together. The nodes are laid if each stands whole in a main LEB and no inode is an attribute's.
pub fn live_nodes_are_laid_as_their_tree()
    ensures tree { (tree : Tree) (master : AMaster) (nodes : List Placed) → IsProper tree → AreNodesOfTree tree nodes → master.highest_inum ≡ tree.highest
        → tree_of_nodes master nodes ≡ stored_tree tree }
    ensures shows { (tree : Tree) (master : AMaster) (nodes : List Placed) → IsProper tree → AreNodesOfTree tree nodes → master.highest_inum ≡ tree.highest → nameless tree ≡ []
        → ShowTree (map kept_at nodes) (tree_of_nodes master nodes) }
    ensures laid { (contents : ℕ → List ℕ) (geo : RawGeometry) (props : List AnLprop) (tree : Tree) (nodes : List Placed) → IsProper tree → AreNodesOfTree tree nodes
        → IsTrue (list_all is_plain tree.inodes) → AllByRecursion (StandsUnmarked contents geo props) nodes → AllByRecursion (IsLaidNode contents geo props) nodes }
{
    live_nodes_show_their_tree();
}

/// Nodes that stand in order don't overlap, and no two of their leaves are one.
pub fn nodes_in_order_are_apart()
    ensures disjoint { (lnum offs : ℕ) (nodes : List Placed) → StandInOrder lnum offs nodes → IsTrue (are_disjoint (map branch_to (map leaf_of_placed nodes))) }
    ensures distinct { (lnum offs : ℕ) (nodes : List Placed) → StandInOrder lnum offs nodes → AreDistinct (map leaf_of_placed nodes) }
{}
