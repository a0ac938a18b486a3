// What is told of a sound image.

ghost use Rattle.std.specs.Prelude.{◌≡◌, ℕ, List, IfErr, IfOk, map};
ghost use Rattle.ubi_volume.specs.Volume.{Keeps, SameShape};
ghost use Rattle.sound_image.specs.Breaches.{IsFirstBreach};
ghost use Rattle.sound_image.specs.Image.{Image};
ghost use Rattle.sound_image.specs.Sound.{SoundImage};
ghost use Rattle.image_check.specs.Told.{HasCheckCause, StaysSureCheck, TellsBreach};
ghost use Rattle.sound_check.specs.Reads.{IsReadImage, told_of};
ghost use Rattle.sound_check.specs.Shape.{HasShapeOfImage};

use crate::image_read::ImageRead;
use crate::reading::read_image;
use crate::sound::Sound;
use image_check::CheckFault;
use image_space::space_of;
use index_tree::Leaf;
use leaf_recovery::RecoveredLeaf;
use std::alloc::Global;
use std::thread::Threads;
use ubi_volume::Volume;
use ubifs_base::Memory;

/// Whether the volume holds a sound image, and what is told of it: whether no bud holds a node, and its space. Otherwise as [`read_image`],
/// which tells all that was read too. Want of memory is also told of bytes or of a weight that pass 64 bits.
pub fn check<R: Threads + Sync, V: Volume>(
    rt: &R,
    alloc: Global,
    volume: &mut V,
) -> Result<Sound, CheckFault>
    requires shape { HasShapeOfImage (V.state volume.old) }
    ensures sound { IfOk result (λ sound. (image : Image) × SoundImage (V.state volume.old).holds image × (sound ≡ told_of image)) }
    ensures broken { IfErr result (TellsBreach (IsFirstBreach (V.state volume.old).holds)) }
    ensures keeps { Keeps (V.state volume.old) (V.state volume.new) × SameShape (V.state volume.old) (V.state volume.new) }
    ensures cause { HasCheckCause (V.state volume.old).faults (V.state volume.new).faults result }
    ensures sure { StaysSureCheck (V.state volume.old) (V.state volume.new) result }
{
    let read = read_image(rt, alloc, volume)?;
    match summary_of(alloc, &read) {
        Ok(sound) => Ok(sound),
        Err(_fault) => Err(CheckFault::Memory),
    }
}

/// What is told of a sound image that was read so, as [`check`] tells it. Want of memory is also told of bytes or of a weight that pass 64 bits.
pub fn summary_of(alloc: Global, read: &ImageRead) -> Result<Sound, Memory>
    ensures { (contents : ℕ → List ℕ) (image : Image) → SoundImage contents image → IsReadImage contents read.now image → IfOk result (λ sound. sound ≡ told_of image) }
{
    let nodes = read.buds.read.nodes.as_slice();
    let leaves = places_of(alloc, read.tree.recovered.kept.as_slice())?;
    let space = space_of(
        alloc,
        &read.geometry,
        read.index.nodes.as_slice(),
        read.log.references.as_slice(),
        leaves.as_slice(),
        nodes.len() as u64,
    )?;
    Ok(Sound {
        clean: read.buds.clean,
        space,
    })
}

// The places of leaves.
fn places_of(alloc: Global, kept: &[RecoveredLeaf]) -> Result<Vec<Leaf>, Memory>
    ensures { IfOk result (λ places. places.items ≡ map (λ x. x.leaf) kept.now) }
{
    let mut places = Vec::new(alloc);
    for leaf in kept {
        places.push(leaf.leaf)?;
    }
    Ok(places)
}
