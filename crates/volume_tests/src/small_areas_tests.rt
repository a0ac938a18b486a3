// Masters in a volume in memory, and their addresses.

ghost use Rattle.std.specs.Prelude.{◌≡◌, ◌<◌};
ghost use Rattle.ubi_volume.specs.Volume.{SameShape};

use media_sys::Master;
use small_areas::{
    Misplaced, latest, misplaced_address, read_orphans, write_master, write_orphans,
};
use std::alloc::Global;
use ubi_volume::{MemVolume, VolFault, VolShape, Volume};
use ubifs_base::{Geometry, Memory, RawGeometry};

// A master whose addresses lie in the areas of a volume with 64 main LEBs.
const PLACED: Master = Master {
    highest_inum: 64,
    cmt_no: 0,
    flags: 0,
    log_lnum: 3,
    root_lnum: 10,
    root_offs: 0,
    root_len: 48,
    gc_lnum: 0,
    ihead_lnum: 73,
    ihead_offs: 16384,
    index_size: 48,
    total_free: 0,
    total_dirty: 0,
    total_used: 0,
    total_dead: 0,
    total_dark: 0,
    lpt_lnum: 7,
    lpt_offs: 0,
    nhead_lnum: 0,
    nhead_offs: 0,
    ltab_lnum: 8,
    ltab_offs: 0,
    lsave_lnum: 0,
    lsave_offs: 0,
    lscan_lnum: 0,
    empty_lebs: 0,
    idx_lebs: 0,
    leb_cnt: 74,
};

const SHAPE: VolShape = VolShape {
    leb_size: 16384,
    min_io: 512,
    leb_cnt: 74,
};

const SMALL: VolShape = VolShape {
    leb_size: 4096,
    min_io: 512,
    leb_cnt: 3,
};

// The numbers of the masters in LEBs 1 and 2, where 0 stands for none, and in which LEB the latest is found.
const NUMBERS: &[(u64, u64, Option<u32>)] = &[
    (0, 0, None),
    (5, 0, Some(1)),
    (0, 5, Some(2)),
    (5, 6, Some(2)),
    (6, 5, Some(1)),
    (5, 5, Some(1)),
];

// A master of this number, or nothing.
fn put<V: Volume>(volume: &mut V, lnum: u32, sqnum: u64) -> Result<(), VolFault>
    requires lnum { lnum < (V.state volume.old).leb_cnt }
    requires size { (V.state volume.old).leb_size ≡ 4096 }
    requires unit { (V.state volume.old).min_io ≡ 512 }
    ensures shape { SameShape (V.state volume.old) (V.state volume.new) }
{
    if sqnum == 0 {
        return volume.unmap(lnum);
    }
    let mut node = [0u8; 512];
    PLACED.encode(sqnum, 0, &mut node);
    volume.change(lnum, &node)
}

// The LEB of the latest master, and None where there is no answer.
fn latest_of(alloc: Global, one: u64, two: u64) -> Option<Option<u32>> {
    let Ok(mut volume) = MemVolume::new(alloc, SMALL) else {
        return None;
    };
    if put(&mut volume, 1, one).is_err() || put(&mut volume, 2, two).is_err() {
        return None;
    }
    match latest(alloc, &mut volume) {
        Ok(Some(placed)) => Some(Some(placed.lnum)),
        Ok(None) => Some(None),
        Err(_) => None,
    }
}

fn written_master_is_the_latest(alloc: Global) -> Result<bool, Memory> {
    let Ok(geometry) = Geometry::new(&RawGeometry::plain(16384, 512, 64, 8)) else {
        return Ok(false);
    };
    let mut volume = MemVolume::new(alloc, SHAPE)?;
    let mut leb = vec![in alloc; 0; 16384]?;
    let mut sqnum = 7;
    let Ok(()) = write_master(&mut volume, &geometry, &PLACED, &mut sqnum, &mut leb) else {
        return Ok(false);
    };
    let second = Master {
        cmt_no: 1,
        ..PLACED
    };
    let Ok(()) = write_master(&mut volume, &geometry, &second, &mut sqnum, &mut leb) else {
        return Ok(false);
    };
    match latest(alloc, &mut volume) {
        Ok(Some(found)) => Ok(
            (found.lnum, found.offs, found.sqnum, found.master.cmt_no) == (2, 512, 11, 1)
                && sqnum == 11,
        ),
        _ => Ok(false),
    }
}

// A list that is written and read, and an empty one behind it, which has no node: its unit is padding.
fn written_orphans_are_read(alloc: Global) -> bool {
    let Ok(geometry) = Geometry::new(&RawGeometry::plain(16384, 512, 64, 8)) else {
        return false;
    };
    let Ok(mut volume) = MemVolume::new(alloc, SHAPE) else {
        return false;
    };
    let mut sqnum = 7;
    let some = [64, 66, 4000000000];
    let Ok(()) = write_orphans(alloc, &mut volume, &geometry, 3, &some, &mut sqnum) else {
        return false;
    };
    let Ok(inos) = read_orphans(alloc, &mut volume, &geometry) else {
        return false;
    };
    if inos.as_slice() != some.as_slice() || sqnum != 8 {
        return false;
    }
    let Ok(()) = write_orphans(alloc, &mut volume, &geometry, 4, &[], &mut sqnum) else {
        return false;
    };
    let Ok(inos) = read_orphans(alloc, &mut volume, &geometry) else {
        return false;
    };
    (inos.len(), sqnum) == (0, 8)
}

#[test]
fn masters_and_orphans(rt: HostRuntime) {
    for (one, two, wanted) in NUMBERS {
        assert_eq!(rt; latest_of(rt.alloc(), *one, *two), Some(*wanted));
    }
    assert_eq!(rt;
        (
            written_master_is_the_latest(rt.alloc()),
            written_orphans_are_read(rt.alloc())
        ),
        (Ok(true), true)
    );
}

// A master, and the address that it has in place of the one that it should have.
const ADDRESSES: &[(Master, Option<Misplaced>)] = &[
    (PLACED, None),
    (
        Master {
            log_lnum: 2,
            ..PLACED
        },
        Some(Misplaced {
            wanted: 3,
            found: 2,
        }),
    ),
    (
        Master {
            log_lnum: 7,
            root_lnum: 9,
            ..PLACED
        },
        Some(Misplaced {
            wanted: 7,
            found: 7,
        }),
    ),
    (
        Master {
            root_lnum: 74,
            ..PLACED
        },
        Some(Misplaced {
            wanted: 74,
            found: 74,
        }),
    ),
    (
        Master {
            root_offs: 16337,
            ..PLACED
        },
        Some(Misplaced {
            wanted: 16336,
            found: 16337,
        }),
    ),
    (
        Master {
            root_len: 20000,
            root_offs: 1,
            ..PLACED
        },
        Some(Misplaced {
            wanted: 0,
            found: 1,
        }),
    ),
    (
        Master {
            ihead_offs: 16385,
            ..PLACED
        },
        Some(Misplaced {
            wanted: 16384,
            found: 16385,
        }),
    ),
    (
        Master {
            lpt_lnum: 9,
            ..PLACED
        },
        Some(Misplaced {
            wanted: 9,
            found: 9,
        }),
    ),
    (
        Master {
            lpt_offs: 16384,
            ..PLACED
        },
        Some(Misplaced {
            wanted: 16373,
            found: 16384,
        }),
    ),
    (
        Master {
            ltab_lnum: 6,
            ..PLACED
        },
        Some(Misplaced {
            wanted: 7,
            found: 6,
        }),
    ),
];

#[test]
fn first_address_outside_its_area_is_told(rt: HostRuntime) {
    let Ok(geometry) = Geometry::new(&RawGeometry::plain(16384, 512, 64, 8)) else {
        panic!(&rt; "the geometry is in range");
    };
    for (master, wanted) in ADDRESSES {
        assert_eq!(rt; misplaced_address(master, &geometry), *wanted);
    }
}
