// The rule on masters.

ghost use Rattle.std.specs.Prelude.{IfOk, IfErr};
ghost use Rattle.ubifs_base.specs.RawOf.{raw_of};
ghost use Rattle.ubi_volume.specs.Geometry.{IsGeometryOf};
ghost use Rattle.ubi_volume.specs.Volume.{Keeps, SameShape};
ghost use Rattle.ubi_volume.specs.Faults.{HasAreaCause, StaysSureArea};
ghost use Rattle.sound_image.specs.Breaches.{IsFirstBreach};
ghost use Rattle.sound_image.specs.Masters.{HasMasters};
ghost use Rattle.sound_image.specs.Superblock.{HasSuperblock};
ghost use Rattle.image_check.specs.Told.{HasCheckCause, StaysSureCheck, TellsBreach};

use crate::fault::CheckFault;
use crate::told::told;
use leb_scan::one_text;
use media_sys::one_node;
use small_areas::{PlacedMaster, latest, misplaced_address};
use sound_image::{Breach, Rule};
use std::alloc::Global;
use ubi_volume::{AreaFault, Volume};
use ubifs_base::Geometry;

/// The rule on masters: LEB 1 or 2 has an intact master, and the addresses of the latest lie in their areas (`struct
/// ubifs_mst_node` of ubifs-media.h). Answers the latest master. Takes memory for a LEB.
pub fn check_masters<V: Volume>(
    alloc: Global,
    volume: &mut V,
    geometry: &Geometry,
) -> Result<PlacedMaster, CheckFault>
    requires geometry { IsGeometryOf (raw_of geometry.now) (V.state volume.old) }
    requires superblock { HasSuperblock (V.state volume.old).holds (raw_of geometry.now) }
    ensures met { IfOk result (HasMasters (V.state volume.old).holds (raw_of geometry.now)) }
    ensures broken { IfErr result (TellsBreach (IsFirstBreach (V.state volume.old).holds)) }
    ensures keeps { Keeps (V.state volume.old) (V.state volume.new) × SameShape (V.state volume.old) (V.state volume.new) }
    ensures cause { HasCheckCause (V.state volume.old).faults (V.state volume.new).faults result }
    ensures sure { StaysSureCheck (V.state volume.old) (V.state volume.new) result }
{
    told(read_masters(alloc, volume, geometry))
}

// Reads the masters, and tells the latest or what is wrong with it first.
fn read_masters<V: Volume>(
    alloc: Global,
    volume: &mut V,
    geometry: &Geometry,
) -> Result<Result<PlacedMaster, Breach>, AreaFault>
    requires geometry { IsGeometryOf (raw_of geometry.now) (V.state volume.old) }
    requires superblock { HasSuperblock (V.state volume.old).holds (raw_of geometry.now) }
    ensures met { IfOk result (λ found. IfOk found (HasMasters (V.state volume.old).holds (raw_of geometry.now))) }
    ensures broken { IfOk result (λ found. IfErr found (IsFirstBreach (V.state volume.old).holds)) }
    ensures keeps { Keeps (V.state volume.old) (V.state volume.new) }
    ensures shape { SameShape (V.state volume.old) (V.state volume.new) }
    ensures cause { HasAreaCause (V.state volume.old).faults (V.state volume.new).faults result }
    ensures sure { StaysSureArea (V.state volume.old) (V.state volume.new) result }
{
    one_node();
    one_text();
    let Some(placed) = latest(alloc, volume)? else {
        return Ok(Err(Breach::NoMaster));
    };
    if let Some(misplaced) = misplaced_address(&placed.master, geometry) {
        return Ok(Err(Breach::Damaged {
            rule: Rule::Masters,
            lnum: placed.lnum,
            offs: placed.offs,
            wanted: misplaced.wanted as u64,
            found: misplaced.found as u64,
        }));
    }
    Ok(Ok(placed))
}
