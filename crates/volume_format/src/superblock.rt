// The superblock.

ghost use Rattle.std.specs.Prelude.{◌≡◌, ◌++◌, ◌-◌, ◌%◌, ◌≤◌, ◌<◌, ◌^◌, length, OnOk};
ghost use Rattle.ubifs_base.specs.Gap.{gap_of};
ghost use Rattle.ubifs_base.specs.RawOf.{raw_of};
ghost use Rattle.ubi_volume.specs.Faults.{HasAreaCause, StaysSureArea};
ghost use Rattle.ubi_volume.specs.Geometry.{IsGeometryOf};
ghost use Rattle.ubi_volume.specs.Volume.{SameShape, WorksOn};
ghost use Rattle.media_sys.specs.SystemNode.{IsSuper, superblock, written};
ghost use Rattle.sound_image.specs.Superblock.{BeginsWithSuper};
ghost use Rattle.volume_format.specs.Alone.{AloneUnderWay, HoldsAlone};
ghost use Rattle.volume_format.specs.Format.{new_super};

use crate::laying::in_units;
use media_sys::Super;
use std::alloc::Global;
use ubi_volume::{AreaFault, Volume};
use ubifs_base::{Geometry, fill_gap};

/// Writes the superblock of a new volume: LEB 0 holds its node alone (`struct ubifs_sb_node` of ubifs-media.h). It replaces the LEB as one
/// step, so a power cut at any moment leaves what was there or the node. The error is want of memory for the node's units, or a
/// fault of the volume.
pub fn write_superblock<V: Volume>(
    alloc: Global,
    volume: &mut V,
    geometry: &Geometry,
    node: &Super,
    sqnum: u64,
) -> Result<(), AreaFault>
    requires geometry { IsGeometryOf (raw_of geometry.now) (V.state volume.old) }
    ensures done { OnOk result (HoldsAlone (raw_of geometry.now) (V.state volume.new) 0 (written sqnum 0 (superblock node.now)) × BeginsWithSuper ((V.state volume.new).holds 0) node.now) }
    ensures works { WorksOn (V.state volume.old) (V.state volume.new) 0 (AloneUnderWay (V.state volume.old) 0 (written sqnum 0 (superblock node.now))) }
    ensures shape { SameShape (V.state volume.old) (V.state volume.new) }
    ensures cause { HasAreaCause (V.state volume.old).faults (V.state volume.new).faults result }
    ensures sure { StaysSureArea (V.state volume.old) (V.state volume.new) result }
{
    let size = in_units(geometry, node.len());
    let mut bytes = vec![in alloc; 0; size as usize]?;
    lay(node, sqnum, &mut bytes);
    volume.change(0, &bytes)?;
    Ok(())
}

// Lays the node, and a gap behind it.
fn lay(node: &Super, sqnum: u64, out: &mut [u8])
    requires room { 4096 ≤ length out.old }
    requires size { length out.old < 2 ^ 32 }
    ensures bytes { out.new ≡ written sqnum 0 (superblock node.now) ++ gap_of (length out.old - 4096) }
    ensures node { IsSuper (written sqnum 0 (superblock node.now)) sqnum 0 node.now }
    ensures long { length (written sqnum 0 (superblock node.now)) ≡ 4096 }
{
    let (front, gap) = out.split_at_mut(node.len() as usize);
    node.encode(sqnum, 0, front);
    fill_gap(gap);
}

/// The superblock of a new volume of this geometry, with this identifier (`struct ubifs_sb_node` of ubifs-media.h): the small model, one head besides the
/// collector's, no compression, and times of a second each.
pub fn new_superblock(geometry: &Geometry, uuid: &[u8; 16]) -> Super
    ensures { result ≡ new_super (raw_of geometry.now) uuid.now }
{
    Super {
        key_hash: 0,
        key_fmt: 0,
        flags: 0,
        min_io_size: geometry.min_io,
        leb_size: geometry.leb_size,
        leb_cnt: geometry.leb_cnt,
        max_leb_cnt: geometry.max_leb_cnt,
        max_bud_bytes: 8 * geometry.leb_size as u64,
        log_lebs: geometry.log_lebs,
        lpt_lebs: geometry.lpt_lebs,
        orph_lebs: geometry.orph_lebs,
        jhead_cnt: 1,
        fanout: geometry.fanout,
        lsave_cnt: geometry.lsave_cnt,
        fmt_version: 4,
        default_compr: 0,
        rp_uid: 0,
        rp_gid: 0,
        rp_size: 0,
        time_gran: 1_000_000_000,
        uuid: *uuid,
        ro_compat_version: 0,
    }
}
