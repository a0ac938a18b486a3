// The files of an image are read.

ghost use Rattle.std.specs.Prelude.{◌≡◌, IfErr, IfOk, map};
ghost use Rattle.fs_model.specs.Proper.{IsProper};
ghost use Rattle.image_check.specs.Told.{TellsBreach};
ghost use Rattle.recovered_tree.specs.Files.{AreFilesOf, files_of_image};
ghost use Rattle.sound_check.specs.Calls.{ReadsOnly};
ghost use Rattle.sound_check.specs.Reads.{IsReadImage};
ghost use Rattle.sound_check.specs.Shape.{HasShapeOfImage};
ghost use Rattle.sound_image.specs.Breaches.{IsFirstBreach};
ghost use Rattle.sound_image.specs.Image.{Image};
ghost use Rattle.sound_image.specs.Sound.{SoundImage};
ghost use Rattle.sound_image.specs.Summary.{tree_of_image};
ghost use Rattle.ubi_volume.specs.Faults.{HasAreaCause, StaysSureArea};
ghost use Rattle.ubi_volume.specs.Volume.{Keeps, SameShape};

use crate::highest::highest_of;
use crate::leaf_sets::read_sets;
use crate::recovered_files::RecoveredFiles;
use crate::tree_made::tree_made;
use image_check::CheckFault;
use index_tree::Leaf;
use leaf_recovery::RecoveredLeaf;
use plain_backing::Tree;
use sound_check::{ImageRead, read_image};
use sound_image::the_tree_of_a_mount_is_proper;
use std::alloc::Global;
use std::thread::Threads;
use ubi_volume::{AreaFault, Volume};
use ubifs_base::Memory;

/// The files of the sound image that a volume holds, and all that was read of it. If it holds none, `Unsound` tells what is wrong first, as
/// `read_image` of crate sound_check does. The volume has at least one LEB, and the shape that its superblock tells, if LEB 0 meets the
/// rule on it. Nothing is written. After the whole check each recovered leaf's node is read once more. Takes memory for a fixed multiple
/// of what the check takes and of the files; want of it is also told of files of 2^40 bytes or more.
pub fn read_tree_of<R: Threads + Sync, V: Volume>(
    rt: &R,
    alloc: Global,
    volume: &mut V,
) -> Result<RecoveredFiles, CheckFault>
    requires shape { HasShapeOfImage (V.state volume.old) }
    ensures files { IfOk result (λ files. (image : Image) × AreFilesOf (V.state volume.old).holds image files) }
    ensures broken { IfErr result (TellsBreach (IsFirstBreach (V.state volume.old).holds)) }
    ensures reads { ReadsOnly (V.state volume.old) (V.state volume.new) result }
{
    the_tree_of_a_mount_is_proper();
    let read = read_image(rt, alloc, volume)?;
    match read_files(alloc, volume, &read) {
        Ok(tree) => Ok(RecoveredFiles { read, tree }),
        Err(AreaFault::Memory) => Err(CheckFault::Memory),
        Err(AreaFault::Volume { count }) => Err(CheckFault::Volume { count }),
    }
}

// The files of an image that was read so.
fn read_files<V: Volume>(alloc: Global, volume: &mut V, read: &ImageRead) -> Result<Tree, AreaFault>
    ensures files { IfOk result (λ tree. (image : Image) → SoundImage (V.state volume.old).holds image → IsReadImage (V.state volume.old).holds read.now image → IsProper (tree_of_image image) → tree ≡ files_of_image image) }
    ensures keeps { Keeps (V.state volume.old) (V.state volume.new) × SameShape (V.state volume.old) (V.state volume.new) }
    ensures cause { HasAreaCause (V.state volume.old).faults (V.state volume.new).faults result }
    ensures sure { StaysSureArea (V.state volume.old) (V.state volume.new) result }
{
    let leaves = places_of(alloc, read.tree.recovered.kept.as_slice())?;
    let sets = read_sets(alloc, volume, leaves.as_slice())?;
    let tree = tree_made(alloc, highest_of(read), sets)?;
    Ok(tree)
}

// The places of leaves.
fn places_of(alloc: Global, kept: &[RecoveredLeaf]) -> Result<Vec<Leaf>, Memory>
    ensures { IfOk result (λ places. places.items ≡ map (λ x. x.leaf) kept.now) }
{
    let mut places = Vec::new(alloc);
    for leaf in kept {
        places.push(leaf.leaf)?;
    }
    Ok(places)
}
