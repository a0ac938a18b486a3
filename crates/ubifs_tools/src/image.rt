// The image of a run.

ghost use Rattle.std.specs.Prelude.{◌≡◌, ℕ, List, false, IfOk};
ghost use Rattle.ubifs_base.specs.RawOf.{raw_of};
ghost use Rattle.ubi_volume.specs.MemVolume.{IsBlank, state_of};
ghost use Rattle.ubi_volume.specs.Volume.{image_of};
ghost use Rattle.fs_model.specs.Proper.{IsProper};
ghost use Rattle.image_maker.specs.Image.{shape_for};
ghost use Rattle.image_report.specs.Lebs.{AreLebsOfGeometry};
ghost use Rattle.whole_image.specs.Made.{IsCoveredTree};
ghost use Rattle.ubifs_tools.specs.Command.{IsLeftImage};

use plain_backing::Tree;
use std::alloc::Global;
use ubi_volume::{MemVolume, VolShape, save_image};
use ubifs_base::{Geometry, Memory};
use whole_image::{MakeFault, a_covered_tree_has_room, make_image};

// The bytes of the image of a covered tree. Its identifier is zeros.
#[tactic(auto, unfolding(crate::specs::Command::IsLeftImage))]
pub(crate) fn image_bytes(
    alloc: Global,
    geometry: &Geometry,
    tree: &Tree,
) -> Result<Vec<u8>, Memory>
    requires proper { IsProper tree.now }
    requires small { geometry.now.big ≡ false }
    requires covered { IsCoveredTree (raw_of geometry.now) tree.now }
    ensures { IfOk result (λ image. (holds : ℕ → List ℕ) × IsLeftImage (raw_of geometry.now) tree.now holds
        × AreLebsOfGeometry holds (raw_of geometry.now) × (image.items ≡ image_of holds geometry.now.leb_cnt)) }
{
    a_covered_tree_has_room();
    let mut volume = blank_volume(alloc, geometry)?;
    match make_image(alloc, &mut volume, geometry, tree, &[0; 16]) {
        Ok(()) => save_image(alloc, &volume),
        Err(MakeFault::Crowded { .. }) => unreachable!(),
        Err(_fault) => Err(Memory),
    }
}

// A volume of this geometry, in which nothing is written.
pub(crate) fn blank_volume(alloc: Global, geometry: &Geometry) -> Result<MemVolume, Memory>
    ensures { IfOk result (λ volume. IsBlank (shape_for (raw_of geometry.now)) (state_of volume)) }
{
    let shape = VolShape {
        leb_size: geometry.leb_size,
        min_io: geometry.min_io,
        leb_cnt: geometry.leb_cnt,
    };
    Ok(MemVolume::new(alloc, shape)?)
}
