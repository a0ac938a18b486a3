// The inode of the root directory.

ghost use Rattle.std.specs.Prelude.{◌≡◌, ◌++◌, ◌+◌, ◌-◌, ◌%◌, ◌≤◌, ◌<◌, ◌^◌, length, OnOk};
ghost use Rattle.ubifs_base.specs.Areas.{main_first};
ghost use Rattle.ubifs_base.specs.Gap.{gap_of};
ghost use Rattle.ubifs_base.specs.RawOf.{raw_of};
ghost use Rattle.ubi_volume.specs.Faults.{HasAreaCause, StaysSureArea};
ghost use Rattle.ubi_volume.specs.Geometry.{IsGeometryOf};
ghost use Rattle.ubi_volume.specs.Volume.{SameShape, WorksOn};
ghost use Rattle.media_leaf.specs.LeafNode.{IsLeafNode, inode, written};
ghost use Rattle.volume_format.specs.Alone.{AloneUnderWay, FitsUnits, HoldsAlone};
ghost use Rattle.volume_format.specs.Format.{root_node};

use crate::laying::in_units;
use media_leaf::InoNode;
use std::alloc::Global;
use ubi_volume::{AreaFault, Volume};
use ubifs_base::{Bytes, Geometry, fill_gap};

// Writes the node of the root directory, with number 1, alone into the first main LEB.
pub(crate) fn write_root<V: Volume>(
    alloc: Global,
    volume: &mut V,
    geometry: &Geometry,
    now: u64,
) -> Result<(), AreaFault>
    requires geometry { IsGeometryOf (raw_of geometry.now) (V.state volume.old) }
    requires main { main_first (raw_of geometry.now) < geometry.now.leb_cnt }
    ensures done { OnOk result (HoldsAlone (raw_of geometry.now) (V.state volume.new) (main_first (raw_of geometry.now)) (written 1 0 (inode (root_node now)))) }
    ensures node { OnOk result (IsLeafNode (written 1 0 (inode (root_node now))) 1 0 (inode (root_node now))) }
    ensures units { OnOk result (FitsUnits (raw_of geometry.now) (written 1 0 (inode (root_node now))) 160) }
    ensures works { WorksOn (V.state volume.old) (V.state volume.new) (main_first (raw_of geometry.now)) (AloneUnderWay (V.state volume.old) (main_first (raw_of geometry.now)) (written 1 0 (inode (root_node now)))) }
    ensures shape { SameShape (V.state volume.old) (V.state volume.new) }
    ensures cause { HasAreaCause (V.state volume.old).faults (V.state volume.new).faults result }
    ensures sure { StaysSureArea (V.state volume.old) (V.state volume.new) result }
{
    let size = in_units(geometry, 160);
    let mut bytes = vec![in alloc; 0; size as usize]?;
    lay(alloc, now, &mut bytes);
    volume.change(geometry.main_first(), &bytes)?;
    Ok(())
}

// Lays the node, and a gap behind it.
fn lay(alloc: Global, now: u64, out: &mut [u8])
    requires room { 160 ≤ length out.old }
    requires size { length out.old < 2 ^ 32 }
    ensures bytes { out.new ≡ written 1 0 (inode (root_node now)) ++ gap_of (length out.old - 160) }
    ensures node { IsLeafNode (written 1 0 (inode (root_node now))) 1 0 (inode (root_node now)) }
    ensures long { length (written 1 0 (inode (root_node now))) ≡ 160 }
{
    let node = InoNode {
        ino: 1,
        size: 160,
        atime: now,
        ctime: now,
        mtime: now,
        nlink: 2,
        uid: 0,
        gid: 0,
        mode: 0o040755,
        flags: 0,
        xattr_cnt: 0,
        xattr_size: 0,
        xattr_names: 0,
        bytes: Bytes::from_vec(Vec::new(alloc)),
    };
    let (front, gap) = out.split_at_mut(160);
    node.encode(1, 0, front);
    fill_gap(gap);
}
