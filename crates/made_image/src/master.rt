// The master of a whole image.

ghost use Rattle.std.specs.Prelude.{◌≡◌, ◌-◌, ◌<◌, get_or, length};
ghost use Rattle.ubifs_base.specs.RawOf.{raw_of};
ghost use Rattle.lpt_area.specs.Written.{in_units};
ghost use Rattle.laid_main.specs.Props.{AreBytesTaken};
ghost use Rattle.made_image.specs.Around.{AreMainFilled, made_master, props_over};

use crate::filled_main::FilledMain;
use crate::properties::{dark_of, dead_of, dirty_of, free_of, sum_of};
use lpt_area::LptAt;
use media_lpt::Lprop;
use media_sys::Master;
use ubifs_base::Geometry;
use volume_format::in_units;

// The master over main LEBs with these properties, whose tree was written there. Its flag says that there are no orphans.
pub(crate) fn master_over(
    geometry: &Geometry,
    main: &FilledMain,
    props: &[Lprop],
    at: &LptAt,
) -> Master
    requires filled { AreMainFilled (raw_of geometry.now) main.now }
    requires props { props.now ≡ props_over (raw_of geometry.now) main.now }
    ensures { result ≡ made_master (raw_of geometry.now) main.now at.now }
{
    let first = geometry.main_first();
    let leaves = main.leaves.len() as u32;
    let index = main.index.len() as u32;
    Master {
        highest_inum: main.highest,
        cmt_no: 0,
        flags: 2,
        log_lnum: 3,
        root_lnum: main.root.lnum,
        root_offs: main.root.offs,
        root_len: main.root.len,
        gc_lnum: first + leaves + index,
        ihead_lnum: first + leaves + index - 1,
        ihead_offs: last_end(geometry, &main.index),
        index_size: sum_of(&main.index),
        total_free: free_of(props),
        total_dirty: dirty_of(props),
        total_used: sum_of(&main.leaves),
        total_dead: dead_of(geometry, props),
        total_dark: dark_of(geometry, props),
        lpt_lnum: at.lnum,
        lpt_offs: at.offs,
        nhead_lnum: at.nhead_lnum,
        nhead_offs: at.nhead_offs,
        ltab_lnum: at.ltab_lnum,
        ltab_offs: at.ltab_offs,
        lsave_lnum: 0,
        lsave_offs: 0,
        lscan_lnum: first,
        empty_lebs: geometry.main_lebs() - (leaves + index),
        idx_lebs: index,
        leb_cnt: geometry.leb_cnt,
    }
}

// Where the units of the last LEB's bytes end.
fn last_end(geometry: &Geometry, used: &[u32]) -> u32
    requires some { 0 < length used.now }
    requires taken { AreBytesTaken (raw_of geometry.now) used.now }
    ensures { result ≡ in_units geometry.now.min_io (get_or used.now (length used.now - 1) 0) }
{
    let last = used[used.len() - 1];
    in_units(geometry, last)
}
