// The rules on sums, on erased ends and on the orphan area.

ghost use Rattle.std.specs.Prelude.{◌≡◌, IfErr, IfOk, length};
ghost use Rattle.ubifs_base.specs.Areas.{main_lebs};
ghost use Rattle.ubifs_base.specs.RawOf.{raw_of};
ghost use Rattle.index_media.specs.PlacedRow.{PlacedRow};
ghost use Rattle.sound_image.specs.Breaches.{IsFirstBreach, IsWrongSum};
ghost use Rattle.sound_image.specs.Image.{Image};
ghost use Rattle.sound_image.specs.Space.{HasSums};
ghost use Rattle.sound_image.specs.Wrong.{IsFirstWrong};
ghost use Rattle.sound_image.specs.declared.rule.Rule.TheVariants as rules;
ghost use Rattle.image_check.specs.Told.{IsBreachOf, IsNoVolumeFault, TellsBreach};
ghost use Rattle.index_check.specs.FoundIndex.{IsFoundIndex};
ghost use Rattle.sound_check.specs.Calls.{ReadsOnly};
ghost use Rattle.sound_check.specs.Shape.{HasShapeOfImage};
ghost use Rattle.sound_check.specs.Stages.{HasRecovered};

use crate::areas::Areas;
use crate::leaves::{FoundLeaves, read_leaves};
use image_check::{CheckFault, a_breach_is_first, check_orphans};
use space_check::{check_ends, check_sums};
use std::alloc::Global;
use std::thread::Threads;
use ubi_volume::Volume;

pub(crate) fn read_space<R: Threads + Sync, V: Volume>(
    rt: &R,
    alloc: Global,
    volume: &mut V,
) -> Result<FoundLeaves, CheckFault>
    requires shape { HasShapeOfImage (V.state volume.old) }
    ensures met { IfOk result (λ recovered. (image : Image) × HasRecovered rules.Tree (V.state volume.old).holds recovered image) }
    ensures broken { IfErr result (TellsBreach (IsFirstBreach (V.state volume.old).holds)) }
    ensures reads { ReadsOnly (V.state volume.old) (V.state volume.new) result }
{
    a_breach_is_first();
    let found = read_leaves(rt, alloc, volume)?;
    let geometry = found.journal.areas.begun.geometry;
    add_up(alloc, &found.journal.areas)?;
    check_ends(
        alloc,
        volume,
        &geometry,
        &found.journal.areas.begun.latest.master,
        found.journal.areas.props.as_slice(),
        found.journal.log.references.as_slice(),
    )?;
    check_orphans(alloc, volume, &geometry)?;
    Ok(found)
}

// The rule on sums. No volume is read.
fn add_up(alloc: Global, areas: &Areas) -> Result<(), CheckFault>
    requires { length areas.now.props.items ≡ main_lebs (raw_of areas.now.begun.geometry) }
    ensures met { (placed : PlacedRow) → IsFoundIndex placed areas.now.index → IfOk result (λ _. HasSums (raw_of areas.now.begun.geometry) areas.now.props.items placed) }
    ensures broken { (placed : PlacedRow) → IsFoundIndex placed areas.now.index → IfErr result (TellsBreach (IsBreachOf rules.Sums (IsFirstWrong (IsWrongSum (raw_of areas.now.begun.geometry) areas.now.props.items placed)))) }
    ensures no_volume { IsNoVolumeFault result }
{
    check_sums(
        alloc,
        &areas.begun.geometry,
        areas.props.as_slice(),
        areas.index.leaves.as_slice(),
        areas.index.nodes.as_slice(),
    )
}
