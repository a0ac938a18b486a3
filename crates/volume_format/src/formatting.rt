// A blank volume becomes a new file system.

ghost use Rattle.std.specs.Prelude.{◌≡◌, ◌≤◌, ◌<◌, ◌^◌, ◌+◌, ℕ, false, length, IfOk, OnOk};
ghost use Rattle.ubifs_base.specs.Areas.{main_lebs};
ghost use Rattle.ubifs_base.specs.RawOf.{raw_of};
ghost use Rattle.ubi_volume.specs.Faults.{HasAreaCause, StaysSureArea};
ghost use Rattle.ubi_volume.specs.Geometry.{IsGeometryOf};
ghost use Rattle.ubi_volume.specs.Frame.{IsSameLeb};
ghost use Rattle.ubi_volume.specs.Volume.{SameShape};
ghost use Rattle.small_areas.specs.Copies.{IsMasterLeb};
ghost use Rattle.small_areas.specs.Masters.{IsLatest};
ghost use Rattle.small_areas.specs.declared.placed_master.PlacedMaster.{PlacedMaster as APlacedMaster};
ghost use Rattle.volume_format.specs.Format.{AreAreasLaid, IsMainLaid, IsNewVolume, IsUnwritten, new_master};

use crate::index::write_index;
use crate::log_start::start_log;
use crate::master::first_master;
use crate::properties::new_properties;
use crate::root::write_root;
use crate::superblock::{new_superblock, write_superblock};
use laid_image::a_laid_image_is_sound;
use lpt_area::{LptAt, write_tree};
use small_areas::write_master;
use sound_image::what_is_written_meets_the_rules;
use std::alloc::Global;
use ubi_volume::{AreaFault, Volume};
use ubifs_base::Geometry;

/// Makes a blank volume a new file system of this geometry: it has the root directory alone, made at this time, in seconds since 1970. The
/// superblock goes out last, and has this identifier. The volume is a sound image then. The error is want of memory for a LEB and for the
/// properties, or a fault of the volume; some of its LEBs may be written then.
pub fn format<V: Volume>(
    alloc: Global,
    volume: &mut V,
    geometry: &Geometry,
    uuid: &[u8; 16],
    now: u64,
) -> Result<(), AreaFault>
    requires geometry { IsGeometryOf (raw_of geometry.now) (V.state volume.old) }
    requires small { geometry.now.big ≡ false }
    requires three { 3 ≤ main_lebs (raw_of geometry.now) }
    requires unwritten { IsUnwritten (V.state volume.old) }
    ensures made { OnOk result (IsNewVolume (V.state volume.new).holds (raw_of geometry.now) uuid.now now) }
    ensures shape { SameShape (V.state volume.old) (V.state volume.new) }
    ensures cause { HasAreaCause (V.state volume.old).faults (V.state volume.new).faults result }
    ensures sure { StaysSureArea (V.state volume.old) (V.state volume.new) result }
{
    let at = lay_main(alloc, volume, geometry, now)?;
    lay_areas(alloc, volume, geometry, &at)?;
    a_laid_image_is_sound();
    what_is_written_meets_the_rules();
    let node = new_superblock(geometry, uuid);
    write_superblock(alloc, volume, geometry, &node, 6)
}

// Lays the root directory, its index, and the tree of properties, whose place is answered.
fn lay_main<V: Volume>(
    alloc: Global,
    volume: &mut V,
    geometry: &Geometry,
    now: u64,
) -> Result<LptAt, AreaFault>
    requires geometry { IsGeometryOf (raw_of geometry.now) (V.state volume.old) }
    requires three { 3 ≤ main_lebs (raw_of geometry.now) }
    ensures laid { IfOk result (IsMainLaid (raw_of geometry.now) now (V.state volume.old) (V.state volume.new)) }
    ensures spent { (V.state volume.old).spent → (V.state volume.new).spent }
    ensures shape { SameShape (V.state volume.old) (V.state volume.new) }
    ensures cause { HasAreaCause (V.state volume.old).faults (V.state volume.new).faults result }
    ensures sure { StaysSureArea (V.state volume.old) (V.state volume.new) result }
{
    write_root(alloc, volume, geometry, now)?;
    write_index(alloc, volume, geometry)?;
    let props = new_properties(alloc, geometry)?;
    write_tree(alloc, volume, geometry, &props, 0)
}

// Starts the log, and writes both masters over the tree of properties that stands there.
fn lay_areas<V: Volume>(
    alloc: Global,
    volume: &mut V,
    geometry: &Geometry,
    at: &LptAt,
) -> Result<(), AreaFault>
    requires geometry { IsGeometryOf (raw_of geometry.now) (V.state volume.old) }
    requires three { 3 ≤ main_lebs (raw_of geometry.now) }
    requires open_there { (lnum : ℕ) → IsMasterLeb lnum → (V.state volume.old).written lnum ≡ 0 }
    ensures laid { OnOk result (AreAreasLaid (raw_of geometry.now) (V.state volume.old) (V.state volume.new) at.now) }
    ensures spent { (V.state volume.old).spent → (V.state volume.new).spent }
    ensures shape { SameShape (V.state volume.old) (V.state volume.new) }
    ensures cause { HasAreaCause (V.state volume.old).faults (V.state volume.new).faults result }
    ensures sure { StaysSureArea (V.state volume.old) (V.state volume.new) result }
{
    start_log(alloc, volume, geometry, 0, 3)?;
    put_masters(alloc, volume, geometry, at)
}

// Writes both masters over the tree of properties that stands there.
fn put_masters<V: Volume>(
    alloc: Global,
    volume: &mut V,
    geometry: &Geometry,
    at: &LptAt,
) -> Result<(), AreaFault>
    requires geometry { IsGeometryOf (raw_of geometry.now) (V.state volume.old) }
    requires three { 3 ≤ main_lebs (raw_of geometry.now) }
    requires open_there { (lnum : ℕ) → IsMasterLeb lnum → (V.state volume.old).written lnum ≡ 0 }
    ensures latest { OnOk result ((latest : APlacedMaster) × IsLatest ((V.state volume.new).holds 1) ((V.state volume.new).holds 2) latest × (latest.master ≡ new_master (raw_of geometry.now) at.now)) }
    ensures others { (lnum : ℕ) → (IsMasterLeb lnum → ⊥) → IsSameLeb (V.state volume.old) (V.state volume.new) lnum }
    ensures spent { (V.state volume.old).spent → (V.state volume.new).spent }
    ensures shape { SameShape (V.state volume.old) (V.state volume.new) }
    ensures cause { HasAreaCause (V.state volume.old).faults (V.state volume.new).faults result }
    ensures sure { StaysSureArea (V.state volume.old) (V.state volume.new) result }
{
    let master = first_master(geometry, at);
    let mut leb = vec![in alloc; 0; geometry.leb_size as usize]?;
    let mut sqnum = 3;
    write_master(volume, geometry, &master, &mut sqnum, &mut leb)?;
    Ok(())
}
