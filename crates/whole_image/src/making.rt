// The whole image of a tree.

ghost use Rattle.std.specs.Prelude.{◌≡◌, ◌≤◌, ◌<◌, ◌^◌, ◌+◌, ℕ, false, IsTrue, List, [], length, IfOk, IfErr, OnOk};
ghost use Rattle.std.specs.List.{list_all};
ghost use Rattle.ubifs_base.specs.Areas.{main_first, main_lebs};
ghost use Rattle.ubifs_base.specs.RawOf.{raw_of};
ghost use Rattle.ubi_volume.specs.MemVolume.{IsBlank, state_of};
ghost use Rattle.ubi_volume.specs.Volume.{SameShape, filled};
ghost use Rattle.fs_model.specs.Cover.{tree_bytes};
ghost use Rattle.fs_model.specs.Proper.{IsProper};
ghost use Rattle.image_maker.specs.Image.{shape_for};
ghost use Rattle.image_maker.specs.Leaves.{live_leaves};
ghost use Rattle.image_maker.specs.Packed.{packed_leaves};
ghost use Rattle.whole_image.specs.Made.{CanBeLaid, IsMadeImage, IsNotPlain, IsOutOfLebs, IsPlainTree, IsImageRefused, packed_lebs};

use crate::filling::fill_main;
use crate::make_fault::MakeFault;
use crate::tests_of_trees::{test_inodes, test_tree};
use image_maker::leaves_of_a_tree_are_few;
use laid_image::a_laid_image_is_sound;
use laid_tree::live_nodes_are_laid_as_their_tree;
use made_image::finish_image;
use plain_backing::Tree;
use std::alloc::Global;
use ubi_volume::MemVolume;
use ubifs_base::Geometry;

// The bytes that a volume has at most.
const MOST_BYTES: u64 = 1 << 30;

/// Makes the whole image of a tree in a blank volume in memory: the leaf nodes, their index, and the areas around them; the superblock goes out
/// last, and has this identifier. The volume holds a sound image of the tree then. The error is want of memory, or says why the tree has no
/// image of this geometry; some LEBs may be written then.
pub fn make_image(
    alloc: Global,
    volume: &mut MemVolume,
    geometry: &Geometry,
    tree: &Tree,
    uuid: &[u8; 16],
) -> Result<(), MakeFault>
    requires volume { IsBlank (shape_for (raw_of geometry.now)) (state_of volume.old) }
    requires small { geometry.now.big ≡ false }
    requires proper { IsProper tree.now }
    ensures made { OnOk result (IsMadeImage (state_of volume.new).holds (raw_of geometry.now) uuid.now tree.now) }
    ensures laid { OnOk result (CanBeLaid (raw_of geometry.now) tree.now) }
    ensures refused { IfErr result (IsImageRefused (raw_of geometry.now) tree.now) }
    ensures shape { SameShape (state_of volume.old) (state_of volume.new) }
{
    leaves_of_a_tree_are_few();
    test_tree(geometry, tree)?;
    lay_image(alloc, volume, geometry, tree, uuid)
}

/// Makes the whole image of a tree in a blank volume of just as many main LEBs as it takes (`packed_geometry`). They may be
/// fewer than 24, and no room is kept for later writes. The error is want of memory, or says what is wrong with the tree; some
/// LEBs may be written then.
pub fn make_packed(
    alloc: Global,
    volume: &mut MemVolume,
    geometry: &Geometry,
    tree: &Tree,
    uuid: &[u8; 16],
) -> Result<(), MakeFault>
    requires volume { IsBlank (shape_for (raw_of geometry.now)) (state_of volume.old) }
    requires small { geometry.now.big ≡ false }
    requires proper { IsProper tree.now }
    requires lebs { packed_lebs (raw_of geometry.now) tree.now ≡ main_lebs (raw_of geometry.now) }
    ensures made { OnOk result (IsMadeImage (state_of volume.new).holds (raw_of geometry.now) uuid.now tree.now) }
    ensures plain { OnOk result (IsPlainTree tree.now) }
    ensures refused { IfErr result (IsNotPlain tree.now) }
    ensures shape { SameShape (state_of volume.old) (state_of volume.new) }
{
    test_inodes(tree)?;
    // Leaves take as many bytes as their tree, if each block has its inode, so this isn't met: a volume has no more bytes.
    if tree.bytes() > MOST_BYTES {
        return Err(MakeFault::Memory);
    }
    match lay_image(alloc, volume, geometry, tree, uuid) {
        Ok(()) => Ok(()),
        Err(MakeFault::Crowded { .. }) => unreachable!(),
        Err(_fault) => Err(MakeFault::Memory),
    }
}

// Lays the whole image of a tree whose leaves the main LEBs take.
fn lay_image(
    alloc: Global,
    volume: &mut MemVolume,
    geometry: &Geometry,
    tree: &Tree,
    uuid: &[u8; 16],
) -> Result<(), MakeFault>
    requires volume { IsBlank (shape_for (raw_of geometry.now)) (state_of volume.old) }
    requires small { geometry.now.big ≡ false }
    requires proper { IsProper tree.now }
    requires plain { IsPlainTree tree.now }
    requires few { tree_bytes tree.now ≤ 2 ^ 30 }
    requires room { length (packed_leaves geometry.now.leb_size 0 (live_leaves tree.now)) < main_lebs (raw_of geometry.now) }
    ensures made { OnOk result (IsMadeImage (state_of volume.new).holds (raw_of geometry.now) uuid.now tree.now) }
    ensures refused { IfErr result (IsOutOfLebs (raw_of geometry.now) tree.now) }
    ensures shape { SameShape (state_of volume.old) (state_of volume.new) }
{
    let filling = fill_main(alloc, volume, geometry, tree)?;
    a_laid_image_is_sound();
    live_nodes_are_laid_as_their_tree();
    finish_image(alloc, volume, geometry, &filling.main, filling.sqnum, uuid)?;
    Ok(())
}
