// The rules on the log and on buds.

ghost use Rattle.std.specs.Prelude.{IfErr, IfOk};
ghost use Rattle.ubifs_base.specs.RawOf.{raw_of};
ghost use Rattle.ubi_volume.specs.Geometry.{IsGeometryOf};
ghost use Rattle.sound_image.specs.Breaches.{IsFirstBreach};
ghost use Rattle.sound_image.specs.Image.{Image};
ghost use Rattle.sound_image.specs.declared.rule.Rule.TheVariants as rules;
ghost use Rattle.image_check.specs.Told.{TellsBreach};
ghost use Rattle.sound_check.specs.Calls.{ReadsOnly};
ghost use Rattle.sound_check.specs.Shape.{HasShapeOfImage};
ghost use Rattle.sound_check.specs.Stages.{IsImageUpTo};

use crate::areas::{Areas, read_areas};
use bud_check::{BudsFound, check_buds};
use image_check::{CheckFault, a_breach_is_first};
use journal_check::{LogFound, check_log};
use std::alloc::Global;
use ubi_volume::Volume;

// What the log says, and what its buds do.
#[derive(Drop)]
pub(crate) struct FoundJournal {
    pub(crate) areas: Areas,
    pub(crate) log: LogFound,
    pub(crate) buds: BudsFound,
}

pub(crate) fn read_journal<V: Volume>(
    alloc: Global,
    volume: &mut V,
) -> Result<FoundJournal, CheckFault>
    requires shape { HasShapeOfImage (V.state volume.old) }
    ensures met { IfOk result (λ journal. (image : Image) × IsImageUpTo rules.Leaves (V.state volume.old).holds journal image) }
    ensures geometry { IfOk result (λ journal. IsGeometryOf (raw_of journal.areas.begun.geometry) (V.state volume.new)) }
    ensures broken { IfErr result (TellsBreach (IsFirstBreach (V.state volume.old).holds)) }
    ensures reads { ReadsOnly (V.state volume.old) (V.state volume.new) result }
{
    a_breach_is_first();
    let areas = read_areas(alloc, volume)?;
    let geometry = areas.begun.geometry;
    let log = check_log(alloc, volume, &geometry, &areas.begun.latest.master)?;
    let buds = check_buds(alloc, volume, &geometry, log.references.as_slice())?;
    Ok(FoundJournal { areas, log, buds })
}
