// The check of buds.

ghost use Rattle.std.specs.Prelude.{◌≡◌, IfErr, IfOk};
ghost use Rattle.std.specs.List.{AllByRecursion};
ghost use Rattle.ubifs_base.specs.RawOf.{raw_of};
ghost use Rattle.ubi_volume.specs.Geometry.{IsGeometryOf};
ghost use Rattle.ubi_volume.specs.Volume.{Keeps, SameShape};
ghost use Rattle.bud_log.specs.Buds.{buds_of};
ghost use Rattle.journal_scan.specs.Journal.{IsReadable};
ghost use Rattle.sound_image.specs.Breaches.{IsWrongInBuds};
ghost use Rattle.sound_image.specs.Log.{NamesMain};
ghost use Rattle.sound_image.specs.Wrong.{IsFirstWrong};
ghost use Rattle.sound_image.specs.declared.rule.Rule.TheVariants as rules;
ghost use Rattle.image_check.specs.Told.{HasCheckCause, IsBreachOf, IsNoVolumeFault, StaysSureCheck, TellsBreach};
ghost use Rattle.bud_check.specs.Findings.{IsBudPlace, IsWrongTexts, breach_told};
ghost use Rattle.bud_check.specs.Found.{AreFoundBuds, IsFoundInTexts};

use crate::bud_wrong::{BudMisfit, BudWrong};
use crate::buds_found::BudsFound;
use crate::clean::are_clean;
use crate::named_buds::named_buds;
use crate::reads::read_buds;
use crate::texts::first_in_texts;
use bud_log::HeadAt;
use image_check::CheckFault;
use journal_scan::{BudText, read_journal};
use media_sys::RefNode;
use sound_image::{Breach, Rule};
use std::alloc::Global;
use ubi_volume::{AreaFault, Volume};
use ubifs_base::Geometry;

/// The rule on buds (`HasBuds` of crate sound_image): up to its tail each bud has leaf nodes and padding, and neither a node nor the
/// tail needs a feature that isn't known here (`replay_bud` of Linux fs/ubifs). The buds are those that the log's references
/// name, in the log's order. Each reference names a place of a main LEB: the rule on the log asks it. Answers what the buds say, as a
/// mount reads it, and whether none holds a node. `Unsound` tells what is wrong first: a feature, or the type of a node that may not
/// stand there, where 1 is wanted. Takes memory for the bytes of all buds.
pub fn check_buds<V: Volume>(
    alloc: Global,
    volume: &mut V,
    geometry: &Geometry,
    references: &[RefNode],
) -> Result<BudsFound, CheckFault>
    requires geometry { IsGeometryOf (raw_of geometry.now) (V.state volume.old) }
    requires named { AllByRecursion (NamesMain (raw_of geometry.now)) references.now }
    ensures met { IfOk result (AreFoundBuds (V.state volume.old).holds (buds_of references.now)) }
    ensures broken { IfErr result (TellsBreach (IsBreachOf rules.Buds (IsFirstWrong (IsWrongInBuds (V.state volume.old).holds (buds_of references.now))))) }
    ensures keeps { Keeps (V.state volume.old) (V.state volume.new) × SameShape (V.state volume.old) (V.state volume.new) }
    ensures cause { HasCheckCause (V.state volume.old).faults (V.state volume.new).faults result }
    ensures sure { StaysSureCheck (V.state volume.old) (V.state volume.new) result }
{
    match named_buds(alloc, references) {
        Ok(buds) => check_places(alloc, volume, geometry, &buds),
        Err(_fault) => Err(CheckFault::Memory),
    }
}

// The same of buds that were named.
fn check_places<V: Volume>(
    alloc: Global,
    volume: &mut V,
    geometry: &Geometry,
    buds: &[HeadAt],
) -> Result<BudsFound, CheckFault>
    requires geometry { IsGeometryOf (raw_of geometry.now) (V.state volume.old) }
    requires buds { AllByRecursion (IsBudPlace (raw_of geometry.now)) buds.now }
    ensures met { IfOk result (AreFoundBuds (V.state volume.old).holds buds.now) }
    ensures broken { IfErr result (TellsBreach (IsBreachOf rules.Buds (IsFirstWrong (IsWrongInBuds (V.state volume.old).holds buds.now)))) }
    ensures keeps { Keeps (V.state volume.old) (V.state volume.new) × SameShape (V.state volume.old) (V.state volume.new) }
    ensures cause { HasCheckCause (V.state volume.old).faults (V.state volume.new).faults result }
    ensures sure { StaysSureCheck (V.state volume.old) (V.state volume.new) result }
{
    match read_buds(alloc, volume, buds) {
        Ok(texts) => judge(alloc, &texts),
        Err(AreaFault::Memory) => Err(CheckFault::Memory),
        Err(AreaFault::Volume { count }) => Err(CheckFault::Volume { count }),
    }
}

// What these texts say, or what is wrong first in them.
fn judge(alloc: Global, texts: &[BudText]) -> Result<BudsFound, CheckFault>
    requires { AllByRecursion IsReadable texts.now }
    ensures met { IfOk result (IsFoundInTexts texts.now) }
    ensures broken { IfErr result (TellsBreach (IsBreachOf rules.Buds (IsFirstWrong (IsWrongTexts texts.now)))) }
    ensures no_volume { IsNoVolumeFault result }
{
    if let Some(wrong) = first_in_texts(texts) {
        return Err(CheckFault::Unsound {
            breach: breach_of(wrong),
        });
    }
    match read_journal(alloc, texts) {
        Ok(read) => Ok(BudsFound {
            read,
            clean: are_clean(texts),
        }),
        Err(_fault) => Err(CheckFault::Memory),
    }
}

// What is wrong breaks the rule on buds.
fn breach_of(wrong: BudWrong) -> Breach
    ensures { result ≡ breach_told wrong }
{
    match wrong.misfit {
        BudMisfit::Needs { what } => Breach::Feature {
            what,
            lnum: wrong.lnum,
            offs: wrong.offs,
        },
        BudMisfit::Unwanted { kind } => Breach::Damaged {
            rule: Rule::Buds,
            lnum: wrong.lnum,
            offs: wrong.offs,
            wanted: 1,
            found: kind as u64,
        },
    }
}
