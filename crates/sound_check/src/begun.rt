// The rules on the superblock and on masters.

ghost use Rattle.std.specs.Prelude.{IfErr, IfOk};
ghost use Rattle.ubifs_base.specs.RawOf.{raw_of};
ghost use Rattle.ubi_volume.specs.Geometry.{IsGeometryOf};
ghost use Rattle.sound_image.specs.Breaches.{IsFirstBreach};
ghost use Rattle.image_check.specs.Told.{TellsBreach};
ghost use Rattle.sound_check.specs.Calls.{ReadsOnly};
ghost use Rattle.sound_check.specs.Shape.{HasShapeOfImage};
ghost use Rattle.sound_check.specs.Stages.{HasSoundBeginning};

use image_check::{CheckFault, check_masters, check_superblock};
use small_areas::PlacedMaster;
use std::alloc::Global;
use ubi_volume::Volume;
use ubifs_base::Geometry;

// The geometry, and the latest master.
#[derive(Clone, Copy)]
pub(crate) struct Begun {
    pub(crate) geometry: Geometry,
    pub(crate) latest: PlacedMaster,
}

pub(crate) fn begin<V: Volume>(alloc: Global, volume: &mut V) -> Result<Begun, CheckFault>
    requires shape { HasShapeOfImage (V.state volume.old) }
    ensures met { IfOk result (HasSoundBeginning (V.state volume.old).holds) }
    ensures geometry { IfOk result (λ begun. IsGeometryOf (raw_of begun.geometry) (V.state volume.new)) }
    ensures broken { IfErr result (TellsBreach (IsFirstBreach (V.state volume.old).holds)) }
    ensures reads { ReadsOnly (V.state volume.old) (V.state volume.new) result }
{
    let geometry = check_superblock(alloc, volume)?;
    let latest = check_masters(alloc, volume, &geometry)?;
    Ok(Begun { geometry, latest })
}
