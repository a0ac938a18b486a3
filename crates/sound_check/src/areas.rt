// The rules on properties and on the index.

ghost use Rattle.std.specs.Prelude.{IfErr, IfOk};
ghost use Rattle.ubifs_base.specs.RawOf.{raw_of};
ghost use Rattle.ubi_volume.specs.Geometry.{IsGeometryOf};
ghost use Rattle.sound_image.specs.Breaches.{IsFirstBreach};
ghost use Rattle.image_check.specs.Told.{TellsBreach};
ghost use Rattle.index_media.specs.PlacedRow.{PlacedRow};
ghost use Rattle.sound_check.specs.Calls.{ReadsOnly};
ghost use Rattle.sound_check.specs.Shape.{HasShapeOfImage};
ghost use Rattle.sound_check.specs.Stages.{HasAreas};

use crate::begun::{Begun, begin};
use image_check::{CheckFault, a_breach_is_first, check_properties};
use index_check::{IndexFound, check_index};
use media_lpt::Lprop;
use std::alloc::Global;
use ubi_volume::Volume;

// The properties of the main LEBs, and what the index says.
#[derive(Drop)]
pub(crate) struct Areas {
    pub(crate) begun: Begun,
    pub(crate) props: Vec<Lprop>,
    pub(crate) index: IndexFound,
}

pub(crate) fn read_areas<V: Volume>(alloc: Global, volume: &mut V) -> Result<Areas, CheckFault>
    requires shape { HasShapeOfImage (V.state volume.old) }
    ensures met { IfOk result (λ areas. (placed : PlacedRow) × HasAreas (V.state volume.old).holds areas placed) }
    ensures geometry { IfOk result (λ areas. IsGeometryOf (raw_of areas.begun.geometry) (V.state volume.new)) }
    ensures broken { IfErr result (TellsBreach (IsFirstBreach (V.state volume.old).holds)) }
    ensures reads { ReadsOnly (V.state volume.old) (V.state volume.new) result }
{
    a_breach_is_first();
    let begun = begin(alloc, volume)?;
    let props = check_properties(alloc, volume, &begun.geometry, &begun.latest.master)?;
    let index = check_index(
        alloc,
        volume,
        &begun.geometry,
        &begun.latest.master,
        props.as_slice(),
    )?;
    Ok(Areas {
        begun,
        props,
        index,
    })
}
