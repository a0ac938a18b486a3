// Laws: what lay_tree answers are the live nodes of the tree, each where it stands, in order of key.

ghost use Rattle.std.specs.Prelude.{◌≡◌, ◌⊎◌, ◌+◌, ◌^◌, ◌<◌, ◌≤◌, ℕ, IsTrue, List, [], None, length, map};
ghost use Rattle.ubifs_base.specs.Areas.{main_first};
ghost use Rattle.ubifs_base.specs.Geometry.{IsGeometry};
ghost use Rattle.ubifs_base.specs.declared.raw_geometry.RawGeometry.{RawGeometry};
ghost use Rattle.ubi_volume.specs.Volume.{filled};
ghost use Rattle.media_sys.specs.Index.{in_order};
ghost use Rattle.index_media.specs.PlacedRow.{branch_to};
ghost use Rattle.index_tree.specs.Keyed.{HaveKeys};
ghost use Rattle.index_tree.specs.Order.{ordered_from};
ghost use Rattle.fs_model.specs.Files.{Tree};
ghost use Rattle.fs_model.specs.Proper.{IsProper};
ghost use Rattle.leaf_map.specs.Kept.{Placed};
ghost use Rattle.image_maker.specs.Leaves.{live_leaves};
ghost use Rattle.image_maker.specs.Places.{AreLaid};
ghost use Rattle.image_maker.specs.declared.laid_leaves.LaidLeaves.{LaidLeaves as ALaidLeaves};
ghost use Rattle.laid_image.specs.Laid.{leaf_of_placed};
ghost use Rattle.tree_nodes.specs.Stored.{AreNodesOfTree};
ghost use Rattle.laid_tree.specs.Leaves.{AreLeavesLaid};

use tree_nodes::live_nodes_show_their_tree;

/// What image_maker answers of a tree that it laid are the leaves of nodes that stand, from the first main LEB on one behind another, with the bytes that
/// they take of each LEB, and the number behind theirs. Every other LEB is unwritten, of which one is left at least. Where these LEBs stay, the nodes do.
pub fn laid_leaves_stand()
    ensures stand { (geo : RawGeometry) (tree : Tree) (contents : ℕ → List ℕ) (laid : ALaidLeaves) → IsGeometry geo → AreLaid geo (live_leaves tree) contents laid
        → (nodes : List Placed) × AreLeavesLaid geo contents tree nodes laid.used.items × (laid.leaves.items ≡ map leaf_of_placed nodes) × (laid.sqnum ≡ length nodes + 1) }
    ensures unwritten { (geo : RawGeometry) (tree : Tree) (contents : ℕ → List ℕ) (laid : ALaidLeaves) → AreLaid geo (live_leaves tree) contents laid
        → (n : ℕ) → n < geo.leb_cnt → (n < main_first geo) ⊎ (main_first geo + length laid.used.items ≤ n) → contents n ≡ filled geo.leb_size [] }
    ensures room { (geo : RawGeometry) (tree : Tree) (contents : ℕ → List ℕ) (laid : ALaidLeaves) → AreLaid geo (live_leaves tree) contents laid
        → (main_first geo + length laid.used.items < geo.leb_cnt) × (laid.sqnum ≤ 2 ^ 30 + 1) }
    ensures kept { (geo : RawGeometry) (old new : ℕ → List ℕ) (tree : Tree) (nodes : List Placed) (used : List ℕ) → ((k : ℕ) → k < length used → new (main_first geo + k) ≡ old (main_first geo + k))
        → AreLeavesLaid geo old tree nodes used → AreLeavesLaid geo new tree nodes used }
{}

/// Each leaf of nodes that were laid has a key. Those of a proper tree are some, no key is lower than the one before it, and only entries may have the same.
pub fn laid_leaves_are_in_order()
    ensures keys { (geo : RawGeometry) (contents : ℕ → List ℕ) (tree : Tree) (nodes : List Placed) (used : List ℕ) → AreLeavesLaid geo contents tree nodes used → HaveKeys (map leaf_of_placed nodes) }
    ensures order { (geo : RawGeometry) (contents : ℕ → List ℕ) (tree : Tree) (nodes : List Placed) (used : List ℕ) → IsProper tree → AreLeavesLaid geo contents tree nodes used
        → IsTrue (in_order None (map branch_to (map leaf_of_placed nodes))) }
    ensures ordered { (tree : Tree) (nodes : List Placed) → IsProper tree → AreNodesOfTree tree nodes → IsTrue (ordered_from 0 (map leaf_of_placed nodes)) }
    ensures some { (tree : Tree) (nodes : List Placed) → IsProper tree → AreNodesOfTree tree nodes → 0 < length nodes }
{
    live_nodes_show_their_tree();
}
