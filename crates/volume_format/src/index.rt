// The index of the root directory.

ghost use Rattle.std.specs.Prelude.{◌≡◌, ◌++◌, ◌+◌, ◌-◌, ◌%◌, ◌≤◌, ◌<◌, ◌^◌, [], ◌∷◌, length, OnOk};
ghost use Rattle.ubifs_base.specs.Areas.{main_first};
ghost use Rattle.ubifs_base.specs.Gap.{gap_of};
ghost use Rattle.ubifs_base.specs.RawOf.{raw_of};
ghost use Rattle.ubi_volume.specs.Faults.{HasAreaCause, StaysSureArea};
ghost use Rattle.ubi_volume.specs.Geometry.{IsGeometryOf};
ghost use Rattle.ubi_volume.specs.Volume.{SameShape, WorksOn};
ghost use Rattle.media_sys.specs.SystemNode.{IsSystemNode, index, written};
ghost use Rattle.volume_format.specs.Alone.{AloneUnderWay, FitsUnits, HoldsAlone};
ghost use Rattle.volume_format.specs.Format.{root_index};

use crate::laying::in_units;
use media_sys::{Branch, IdxNode};
use std::alloc::{AllocError, Global};
use ubi_volume::{AreaFault, Volume};
use ubifs_base::{Geometry, Key, fill_gap};

// Writes an index of the root directory's inode, one node with number 2, alone into the second main LEB.
pub(crate) fn write_index<V: Volume>(
    alloc: Global,
    volume: &mut V,
    geometry: &Geometry,
) -> Result<(), AreaFault>
    requires geometry { IsGeometryOf (raw_of geometry.now) (V.state volume.old) }
    requires main { main_first (raw_of geometry.now) + 1 < geometry.now.leb_cnt }
    ensures done { OnOk result (HoldsAlone (raw_of geometry.now) (V.state volume.new) (main_first (raw_of geometry.now) + 1) (written 2 0 (index (root_index (raw_of geometry.now))))) }
    ensures node { OnOk result (IsSystemNode (written 2 0 (index (root_index (raw_of geometry.now)))) 2 0 (index (root_index (raw_of geometry.now)))) }
    ensures units { OnOk result (FitsUnits (raw_of geometry.now) (written 2 0 (index (root_index (raw_of geometry.now)))) 48) }
    ensures works { WorksOn (V.state volume.old) (V.state volume.new) (main_first (raw_of geometry.now) + 1) (AloneUnderWay (V.state volume.old) (main_first (raw_of geometry.now) + 1) (written 2 0 (index (root_index (raw_of geometry.now))))) }
    ensures shape { SameShape (V.state volume.old) (V.state volume.new) }
    ensures cause { HasAreaCause (V.state volume.old).faults (V.state volume.new).faults result }
    ensures sure { StaysSureArea (V.state volume.old) (V.state volume.new) result }
{
    let first = geometry.main_first();
    let size = in_units(geometry, 48);
    let mut bytes = vec![in alloc; 0; size as usize]?;
    lay(alloc, geometry, &mut bytes)?;
    volume.change(first + 1, &bytes)?;
    Ok(())
}

// Lays the node, and a gap behind it.
fn lay(alloc: Global, geometry: &Geometry, out: &mut [u8]) -> Result<(), AllocError>
    requires room { 48 ≤ length out.old }
    requires size { length out.old < 2 ^ 32 }
    ensures bytes { OnOk result (out.new ≡ written 2 0 (index (root_index (raw_of geometry.now))) ++ gap_of (length out.old - 48)) }
    ensures node { OnOk result (IsSystemNode (written 2 0 (index (root_index (raw_of geometry.now)))) 2 0 (index (root_index (raw_of geometry.now)))) }
    ensures long { OnOk result (length (written 2 0 (index (root_index (raw_of geometry.now)))) ≡ 48) }
    ensures len { length out.new ≡ length out.old }
{
    let mut branches = Vec::with_capacity(alloc, 1)?;
    branches.push(Branch {
        lnum: geometry.main_first(),
        offs: 0,
        len: 160,
        key: Key::Ino { ino: 1 },
    })?;
    let node = IdxNode { level: 0, branches };
    let (front, gap) = out.split_at_mut(48);
    node.encode(2, 0, front);
    fill_gap(gap);
    Ok(())
}
