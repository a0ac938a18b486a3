// The rule on the index.

ghost use Rattle.std.specs.Prelude.{◌≡◌, IfOk, IfErr};
ghost use Rattle.ubifs_base.specs.RawOf.{raw_of};
ghost use Rattle.ubi_volume.specs.Volume.{Keeps, SameShape};
ghost use Rattle.index_media.specs.PlacedRow.{PlacedRow};
ghost use Rattle.sound_image.specs.Index.{HasIndex};
ghost use Rattle.sound_image.specs.IndexBreaches.{IsWrongIndex};
ghost use Rattle.sound_image.specs.Wrong.{IsFirstWrong};
ghost use Rattle.sound_image.specs.declared.breach.Breach.TheVariants.{Damaged};
ghost use Rattle.sound_image.specs.declared.rule.Rule.TheVariants as rules;
ghost use Rattle.image_check.specs.Told.{HasCheckCause, IsBreachOf, StaysSureCheck, TellsBreach};
ghost use Rattle.index_check.specs.FoundIndex.{IsFoundIndex};

use crate::going_over::go_over;
use crate::index_found::IndexFound;
use image_check::{CheckFault, WrongValue};
use media_lpt::Lprop;
use media_sys::Master;
use sound_image::{Breach, Rule};
use std::alloc::Global;
use ubi_volume::{AreaFault, Volume};
use ubifs_base::Geometry;

/// The rule on the index: from the root on, where the master says that it stands, each index node is intact, of its level, within
/// the fanout, in a LEB that is marked as the index's by these properties of main LEBs, with keys between those of branches
/// (`dbg_check_tnc` of Linux fs/ubifs). Answers its leaves and its nodes. Takes memory for them, for the nodes that wait, and for
/// the bytes of a node, at most 5,148. Want of memory is told too where the nodes take more bytes than the main LEBs have.
pub fn check_index<V: Volume>(
    alloc: Global,
    volume: &mut V,
    geometry: &Geometry,
    master: &Master,
    props: &[Lprop],
) -> Result<IndexFound, CheckFault>
    ensures met { IfOk result (λ found. (placed : PlacedRow) × HasIndex (V.state volume.old).holds (raw_of geometry.now) master.now props.now placed × IsFoundIndex placed found) }
    ensures broken { IfErr result (TellsBreach (IsBreachOf rules.Index (IsFirstWrong (IsWrongIndex (V.state volume.old).holds (raw_of geometry.now) master.now props.now)))) }
    ensures keeps { Keeps (V.state volume.old) (V.state volume.new) × SameShape (V.state volume.old) (V.state volume.new) }
    ensures cause { HasCheckCause (V.state volume.old).faults (V.state volume.new).faults result }
    ensures sure { StaysSureCheck (V.state volume.old) (V.state volume.new) result }
{
    match go_over(alloc, volume, geometry, master, props) {
        Ok(Ok(found)) => Ok(found),
        Ok(Err(node)) => Err(CheckFault::Unsound {
            breach: index_breach(node),
        }),
        Err(AreaFault::Memory) => Err(CheckFault::Memory),
        Err(AreaFault::Volume { count }) => Err(CheckFault::Volume { count }),
    }
}

// What is wrong at a node breaks the rule on the index.
fn index_breach(node: WrongValue) -> Breach
    ensures { result ≡ Damaged rules.Index node.lnum node.offs node.wanted node.found }
{
    Breach::Damaged {
        rule: Rule::Index,
        lnum: node.lnum,
        offs: node.offs,
        wanted: node.wanted,
        found: node.found,
    }
}
