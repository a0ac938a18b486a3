// The first master of a new file system.

ghost use Rattle.std.specs.Prelude.{◌≡◌, ◌+◌, ◌-◌, ◌*◌, ◌≤◌};
ghost use Rattle.ubifs_base.specs.Areas.{main_lebs};
ghost use Rattle.ubifs_base.specs.RawOf.{raw_of};
ghost use Rattle.lpt_area.specs.Written.{in_units};
ghost use Rattle.volume_format.specs.Format.{new_master};

use crate::laying::in_units;
use lpt_area::LptAt;
use media_sys::Master;
use ubifs_base::Geometry;

// The master over the tree of properties that was written there. Its flag says that there are no orphans.
pub(crate) fn first_master(geometry: &Geometry, at: &LptAt) -> Master
    requires three { 3 ≤ main_lebs (raw_of geometry.now) }
    ensures { result ≡ new_master (raw_of geometry.now) at.now }
{
    let main = geometry.main_first();
    let root = in_units(geometry, 160);
    let index = in_units(geometry, 48);
    Master {
        highest_inum: 64,
        cmt_no: 0,
        flags: 2,
        log_lnum: 3,
        root_lnum: main + 1,
        root_offs: 0,
        root_len: 48,
        gc_lnum: main + 2,
        ihead_lnum: main + 1,
        ihead_offs: index,
        index_size: 48,
        total_free: free_bytes(geometry),
        total_dirty: (root as u64 - 160) + (index as u64 - 48),
        total_used: 160,
        total_dead: 0,
        total_dark: dark_bytes(geometry),
        lpt_lnum: at.lnum,
        lpt_offs: at.offs,
        nhead_lnum: at.nhead_lnum,
        nhead_offs: at.nhead_offs,
        ltab_lnum: at.ltab_lnum,
        ltab_offs: at.ltab_offs,
        lsave_lnum: 0,
        lsave_offs: 0,
        lscan_lnum: main,
        empty_lebs: geometry.main_lebs() - 2,
        idx_lebs: 1,
        leb_cnt: geometry.leb_cnt,
    }
}

// The free bytes of all main LEBs.
fn free_bytes(geometry: &Geometry) -> u64
    requires three { 3 ≤ main_lebs (raw_of geometry.now) }
    ensures { result ≡ main_lebs (raw_of geometry.now) * geometry.now.leb_size - (in_units geometry.now.min_io 160 + in_units geometry.now.min_io 48) }
{
    let root = in_units(geometry, 160);
    let index = in_units(geometry, 48);
    geometry.main_lebs() as u64 * geometry.leb_size as u64 - (root as u64 + index as u64)
}

// What nodes may leave unused at the ends of the main LEBs but the index's: in each the units of the largest node.
fn dark_bytes(geometry: &Geometry) -> u64
    requires three { 3 ≤ main_lebs (raw_of geometry.now) }
    ensures { result ≡ (main_lebs (raw_of geometry.now) - 1) * in_units geometry.now.min_io 4256 }
{
    (geometry.main_lebs() as u64 - 1) * in_units(geometry, 4256) as u64
}
