// The log and the masters.

ghost use Rattle.std.specs.Prelude.{◌≡◌, ◌≢◌, ◌<◌, ◌^◌, ◌+◌, ℕ, OnOk};
ghost use Rattle.ubifs_base.specs.RawOf.{raw_of};
ghost use Rattle.ubi_volume.specs.Faults.{HasAreaCause, StaysSureArea};
ghost use Rattle.ubi_volume.specs.Geometry.{IsGeometryOf};
ghost use Rattle.ubi_volume.specs.Frame.{IsSameLeb};
ghost use Rattle.ubi_volume.specs.Volume.{SameShape, filled};
ghost use Rattle.small_areas.specs.Copies.{AreCopied, IsMasterLeb, room_of};
ghost use Rattle.made_image.specs.Around.{AreLogAndMasters, IsUnwrittenLeb};

use leb_scan::one_text;
use media_sys::Master;
use small_areas::write_master;
use std::alloc::Global;
use ubi_volume::{AreaFault, Volume};
use ubifs_base::Geometry;
use volume_format::start_log;

// Starts the log with the number behind this one, and writes both copies of the master with the two behind that.
pub(crate) fn lay_areas<V: Volume>(
    alloc: Global,
    volume: &mut V,
    geometry: &Geometry,
    master: &Master,
    sqnum: u64,
) -> Result<(), AreaFault>
    requires geometry { IsGeometryOf (raw_of geometry.now) (V.state volume.old) }
    requires number { sqnum < 2 ^ 63 }
    requires blank { (lnum : ℕ) → IsMasterLeb lnum → IsUnwrittenLeb (V.state volume.old) lnum }
    ensures laid { OnOk result (AreLogAndMasters (raw_of geometry.now) sqnum master.now (V.state volume.new).holds) }
    ensures others { (lnum : ℕ) → lnum ≢ 3 → (IsMasterLeb lnum → ⊥) → IsSameLeb (V.state volume.old) (V.state volume.new) lnum }
    ensures spent { (V.state volume.old).spent → (V.state volume.new).spent }
    ensures shape { SameShape (V.state volume.old) (V.state volume.new) }
    ensures cause { HasAreaCause (V.state volume.old).faults (V.state volume.new).faults result }
    ensures sure { StaysSureArea (V.state volume.old) (V.state volume.new) result }
{
    one_text();
    start_log(alloc, volume, geometry, 0, sqnum + 1)?;
    put_masters(alloc, volume, geometry, master, sqnum + 1)
}

// Writes both copies of the master, with the two numbers behind this one.
fn put_masters<V: Volume>(
    alloc: Global,
    volume: &mut V,
    geometry: &Geometry,
    master: &Master,
    sqnum: u64,
) -> Result<(), AreaFault>
    requires geometry { IsGeometryOf (raw_of geometry.now) (V.state volume.old) }
    requires number { sqnum < 2 ^ 63 + 2 ^ 56 }
    requires open_there { (lnum : ℕ) → IsMasterLeb lnum → (V.state volume.old).written lnum ≡ 0 }
    ensures copied { OnOk result (AreCopied (V.state volume.old) (V.state volume.new) (room_of geometry.now.min_io) sqnum master.now) }
    ensures others { (lnum : ℕ) → (IsMasterLeb lnum → ⊥) → IsSameLeb (V.state volume.old) (V.state volume.new) lnum }
    ensures spent { (V.state volume.old).spent → (V.state volume.new).spent }
    ensures shape { SameShape (V.state volume.old) (V.state volume.new) }
    ensures cause { HasAreaCause (V.state volume.old).faults (V.state volume.new).faults result }
    ensures sure { StaysSureArea (V.state volume.old) (V.state volume.new) result }
{
    let mut leb = vec![in alloc; 0; geometry.leb_size as usize]?;
    let mut number = sqnum;
    write_master(volume, geometry, master, &mut number, &mut leb)?;
    Ok(())
}
