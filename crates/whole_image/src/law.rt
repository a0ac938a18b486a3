// Laws of which trees have an image.

ghost use Rattle.std.specs.Prelude.{◌≡◌, ◌≤◌, ◌+◌, ℕ, None};
ghost use Rattle.ubifs_base.specs.Areas.{main_lebs};
ghost use Rattle.ubifs_base.specs.declared.raw_geometry.RawGeometry.{RawGeometry as Raw};
ghost use Rattle.ubifs_base.specs.Geometry.{IsGeometry};
ghost use Rattle.fs_model.specs.Cover.{tree_bytes};
ghost use Rattle.fs_model.specs.Files.{Tree as FilesTree};
ghost use Rattle.fs_model.specs.Proper.{IsProper};
ghost use Rattle.fs_model.specs.Settled.{settled};
ghost use Rattle.fs_model.specs.declared.space.Space.{Space as ASpace};
ghost use Rattle.tree_nodes.specs.Stored.{stored_tree};
ghost use Rattle.tree_space.specs.Laid.{IsTreeAdmitted};
ghost use Rattle.whole_image.specs.Made.{IsCoveredTree, IsCrowded, IsMadeSpace, most_leaf_bytes};

use image_maker::leaves_of_a_tree_are_few;
use laid_index::an_index_takes_few_lebs;
use tree_space::an_admitted_tree_has_room;

/// A covered tree has room: its leaves are no more bytes than are for leaves, and behind them there are LEBs for an index and
/// one that stays empty. So no image of it is refused as full or crowded.
pub fn a_covered_tree_has_room()
    ensures full { (geo : Raw) (tree : FilesTree) → IsCoveredTree geo tree → tree_bytes tree ≤ most_leaf_bytes geo }
    ensures crowded { (geo : Raw) (tree : FilesTree) (need room : ℕ) → IsGeometry geo → IsProper tree → IsCoveredTree geo tree → IsCrowded geo tree need room → ⊥ }
{
    leaves_of_a_tree_are_few();
    an_index_takes_few_lebs();
}

/// A tree that admission takes has room too, since admission keeps more LEBs: no image of it is refused as full or crowded.
pub fn an_admitted_tree_fits()
    ensures full { (geo : Raw) (tree : FilesTree) → IsTreeAdmitted geo tree → tree_bytes tree ≤ most_leaf_bytes geo }
    ensures crowded { (geo : Raw) (tree : FilesTree) (need room : ℕ) → IsGeometry geo → IsProper tree → IsTreeAdmitted geo tree → IsCrowded geo tree need room → ⊥ }
{
    leaves_of_a_tree_are_few();
    an_index_takes_few_lebs();
    an_admitted_tree_has_room();
}

/// The image of a tree that admission takes may be written: with the numbers that a mount counts of it, no test of a store fails. As the
/// image says the tree, its leaves take no more bytes.
pub fn the_image_of_an_admitted_tree_may_be_written()
    ensures settled { (geo : Raw) (tree : FilesTree) (space : ASpace) → IsGeometry geo → IsProper tree → IsTreeAdmitted geo tree → IsMadeSpace geo tree space
        → space.used + space.held ≤ tree_bytes tree → space.main ≡ main_lebs geo → settled geo space ≡ None }
    ensures stored { (tree : FilesTree) → tree_bytes (stored_tree tree) ≤ tree_bytes tree }
{
    leaves_of_a_tree_are_few();
    an_index_takes_few_lebs();
    an_admitted_tree_has_room();
}
