// The start of the log.

ghost use Rattle.std.specs.Prelude.{◌≡◌, ◌++◌, ◌-◌, ◌%◌, ◌≤◌, ◌<◌, ◌^◌, length, OnOk};
ghost use Rattle.ubifs_base.specs.Gap.{gap_of};
ghost use Rattle.ubifs_base.specs.RawOf.{raw_of};
ghost use Rattle.ubi_volume.specs.Faults.{HasAreaCause, StaysSureArea};
ghost use Rattle.ubi_volume.specs.Geometry.{IsGeometryOf};
ghost use Rattle.ubi_volume.specs.Volume.{SameShape, WorksOn};
ghost use Rattle.media_sys.specs.SystemNode.{commit_start, written};
ghost use Rattle.volume_format.specs.Alone.{AloneUnderWay, HoldsAlone};

use crate::laying::in_units;
use media_sys::CommitStart;
use std::alloc::Global;
use ubi_volume::{AreaFault, Volume};
use ubifs_base::{Geometry, fill_gap};

// The first LEB of the log.
const LOG_FIRST: u32 = 3;

/// Starts the log of a new volume: its first LEB holds the start of this commit alone (`struct ubifs_cs_node` of ubifs-media.h). It replaces
/// the LEB as one step, so a power cut at any moment leaves what was there or the node. The error is want of memory for a unit, or
/// a fault of the volume.
pub fn start_log<V: Volume>(
    alloc: Global,
    volume: &mut V,
    geometry: &Geometry,
    cmt_no: u64,
    sqnum: u64,
) -> Result<(), AreaFault>
    requires geometry { IsGeometryOf (raw_of geometry.now) (V.state volume.old) }
    ensures done { OnOk result (HoldsAlone (raw_of geometry.now) (V.state volume.new) 3 (written sqnum 0 (commit_start (record { cmt_no = cmt_no })))) }
    ensures works { WorksOn (V.state volume.old) (V.state volume.new) 3 (AloneUnderWay (V.state volume.old) 3 (written sqnum 0 (commit_start (record { cmt_no = cmt_no })))) }
    ensures shape { SameShape (V.state volume.old) (V.state volume.new) }
    ensures cause { HasAreaCause (V.state volume.old).faults (V.state volume.new).faults result }
    ensures sure { StaysSureArea (V.state volume.old) (V.state volume.new) result }
{
    let node = CommitStart { cmt_no };
    let size = in_units(geometry, node.len());
    let mut bytes = vec![in alloc; 0; size as usize]?;
    lay(&node, sqnum, &mut bytes);
    volume.change(LOG_FIRST, &bytes)?;
    Ok(())
}

// Lays the node, and a gap behind it.
fn lay(node: &CommitStart, sqnum: u64, out: &mut [u8])
    requires room { 32 ≤ length out.old }
    requires size { length out.old < 2 ^ 32 }
    ensures bytes { out.new ≡ written sqnum 0 (commit_start node.now) ++ gap_of (length out.old - 32) }
    ensures long { length (written sqnum 0 (commit_start node.now)) ≡ 32 }
{
    let (front, gap) = out.split_at_mut(node.len() as usize);
    node.encode(sqnum, 0, front);
    fill_gap(gap);
}
