// Laws: where a run begins.

ghost use Rattle.std.specs.Prelude.{◌≡◌, ℕ, IsTrue, List, None, false, filter};
ghost use Rattle.ubifs_base.specs.declared.raw_geometry.RawGeometry.{RawGeometry};
ghost use Rattle.fs_model.specs.Files.{Handles, Tree};
ghost use Rattle.fs_model.specs.Same.{IsSame};
ghost use Rattle.fs_model.specs.Settled.{settled};
ghost use Rattle.fs_model.specs.declared.space.Space.{Space as ASpace};
ghost use Rattle.image_report.specs.Told.{HoldsVolume};
ghost use Rattle.io_edges.specs.Keeper.{KeeperState};
ghost use Rattle.script_run.specs.declared.whole.Run.{Run};
ghost use Rattle.script_run.specs.Opening.{mounted_space};
ghost use Rattle.tree_nodes.specs.Stored.{is_owned, stored_tree};
ghost use Rattle.whole_image.specs.Made.{IsMadeSpace};
ghost use Rattle.ubifs_tools.specs.Ended.{IsFinished};
ghost use Rattle.ubifs_tools.specs.Making.{IsMadeOf, made_geometry};
ghost use Rattle.ubifs_tools.specs.RunCommand.{IsRunDone, IsVolumeOf, files_left};

use image_report::{bytes_hold_one_tree, the_bytes_of_a_volume_hold_what_it_holds};
use tree_nodes::a_stored_tree_is_the_same;
use whole_image::the_image_of_an_admitted_tree_may_be_written;

/// A run begins where another ended. The image of a run is a volume of its geometry with the files that the run left, and with no others.
/// So a run on the file to which it was written begins with these. Of a volume that may be written they are, to every caller, the tree that was left, but for blocks of no inode.
pub fn a_run_begins_where_another_ended()
    ensures volume { (files other : KeeperState) (texts : List ℕ × List ℕ) (text image : List ℕ) (done : IsRunDone files texts text image)
        → IsVolumeOf other image done.geo done.left }
    ensures only { (files other : KeeperState) (texts : List ℕ × List ℕ) (geo : RawGeometry) (tree : Tree) (text image : List ℕ) (done : IsRunDone files texts text image)
        → IsVolumeOf other image geo tree → (geo ≡ done.geo) × (tree ≡ done.left) }
    ensures next { (old mid new : KeeperState) (manifest script image other_script other_image text more : List ℕ) → IsTrue old.tells
        → (first : IsFinished old mid manifest script image text) (second : IsFinished mid new image other_script other_image more)
        → (second.done.geo ≡ first.done.geo) × (second.done.tree ≡ first.done.left) }
    ensures same { (run : Run) (handles : Handles) → IsSame (record { tree = files_left run; handles = handles })
        (record { tree = record run.tree { blocks = filter (is_owned run.tree) run.tree.blocks }; handles = handles }) }
{
    the_bytes_of_a_volume_hold_what_it_holds();
    bytes_hold_one_tree();
    a_stored_tree_is_the_same();
}

/// A run begins on what `mkfs` made. The image is a volume of its geometry, packed or not, with the files of the manifest's tree as an image
/// says them, and with no others. A mount counts of it what is laid of the tree. If the manifest isn't packed, the volume may be written.
pub fn a_run_begins_on_what_mkfs_made()
    ensures volume { (files other : KeeperState) (text told image : List ℕ) (made : IsMadeOf files text told image)
        → IsVolumeOf other image (made_geometry made.volume made.tree) (stored_tree made.tree) }
    ensures only { (files other : KeeperState) (geo : RawGeometry) (tree : Tree) (text told image : List ℕ) (made : IsMadeOf files text told image)
        → IsVolumeOf other image geo tree → (geo ≡ made_geometry made.volume made.tree) × (tree ≡ stored_tree made.tree) }
    ensures numbers { (files : KeeperState) (geo : RawGeometry) (tree : Tree) (space : ASpace) (text told image : List ℕ) (made : IsMadeOf files text told image)
        → HoldsVolume image geo tree space → IsMadeSpace (made_geometry made.volume made.tree) made.tree space }
    ensures writable { (files : KeeperState) (geo : RawGeometry) (tree : Tree) (space : ASpace) (text told image : List ℕ) (made : IsMadeOf files text told image)
        → made.volume.packed ≡ false → HoldsVolume image geo tree space → settled geo (mounted_space geo tree space) ≡ None }
{
    the_bytes_of_a_volume_hold_what_it_holds();
    bytes_hold_one_tree();
    the_image_of_an_admitted_tree_may_be_written();
}
