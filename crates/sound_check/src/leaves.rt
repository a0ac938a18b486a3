// The rule on leaves.

ghost use Rattle.std.specs.Prelude.{IfErr, IfOk};
ghost use Rattle.ubifs_base.specs.RawOf.{raw_of};
ghost use Rattle.ubi_volume.specs.Geometry.{IsGeometryOf};
ghost use Rattle.sound_image.specs.Breaches.{IsFirstBreach};
ghost use Rattle.sound_image.specs.Image.{Image};
ghost use Rattle.sound_image.specs.declared.rule.Rule.TheVariants as rules;
ghost use Rattle.image_check.specs.Told.{TellsBreach};
ghost use Rattle.image_tree.specs.Reads.{IsTreeReadOf};
ghost use Rattle.sound_check.specs.Calls.{ReadsOnly};
ghost use Rattle.sound_check.specs.Shape.{HasShapeOfImage};
ghost use Rattle.sound_check.specs.Stages.{HasRecovered, IsImageUpTo};

use crate::journal::{FoundJournal, read_journal};
use image_check::{CheckFault, a_breach_is_first};
use image_tree::{TreeRead, check_recovered};
use std::alloc::Global;
use std::thread::Threads;
use ubi_volume::Volume;

// What is recovered.
#[derive(Drop)]
pub(crate) struct FoundLeaves {
    pub(crate) journal: FoundJournal,
    pub(crate) tree: TreeRead,
}

pub(crate) fn read_leaves<R: Threads + Sync, V: Volume>(
    rt: &R,
    alloc: Global,
    volume: &mut V,
) -> Result<FoundLeaves, CheckFault>
    requires shape { HasShapeOfImage (V.state volume.old) }
    ensures met { IfOk result (λ recovered. (image : Image) × HasRecovered rules.Sums (V.state volume.old).holds recovered image) }
    ensures geometry { IfOk result (λ recovered. IsGeometryOf (raw_of recovered.journal.areas.begun.geometry) (V.state volume.new)) }
    ensures broken { IfErr result (TellsBreach (IsFirstBreach (V.state volume.old).holds)) }
    ensures reads { ReadsOnly (V.state volume.old) (V.state volume.new) result }
{
    a_breach_is_first();
    let journal = read_journal(alloc, volume)?;
    let tree = check_recovered(
        rt,
        alloc,
        volume,
        &journal.areas.begun.geometry,
        journal.areas.props.as_slice(),
        journal.areas.index.leaves.as_slice(),
        journal.log.references.as_slice(),
        &journal.buds.read,
    )?;
    Ok(FoundLeaves { journal, tree })
}
