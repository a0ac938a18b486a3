// Logs that are written to a volume in memory, with LEBs of 16,384 bytes and the log in LEBs 3 to 6.

ghost use Rattle.std.specs.Prelude.{◌≡◌, IfSome};
ghost use Rattle.ubifs_base.specs.Geometry.{plain_geometry};
ghost use Rattle.ubifs_base.specs.RawOf.{raw_of};

use bud_log::{HeadAt, Log, LogFault, read_log};
use leb_scan::Tail;
use std::alloc::Global;
use ubi_volume::{MemVolume, VolShape};
use ubifs_base::{Geometry, JournalHead, RawGeometry};

const SHAPE: VolShape = VolShape {
    leb_size: 16384,
    min_io: 512,
    leb_cnt: 24,
};

fn small_geometry() -> Option<Geometry>
    ensures { IfSome result (λ geometry. raw_of geometry ≡ plain_geometry 16384 512 64 8) }
{
    let Ok(geometry) = Geometry::new(&RawGeometry::plain(16384, 512, 64, 8)) else {
        return None;
    };
    Some(geometry)
}

fn ring_of_three() -> Option<Geometry>
    ensures { IfSome result (λ geometry. raw_of geometry ≡ record (plain_geometry 16384 512 64 8) { log_lebs = 3 }) }
{
    let mut raw = RawGeometry::plain(16384, 512, 64, 8);
    raw.log_lebs = 3;
    let Ok(geometry) = Geometry::new(&raw) else {
        return None;
    };
    Some(geometry)
}

fn written_section_is_read(alloc: Global) -> bool {
    let Some(geometry) = small_geometry() else {
        return false;
    };
    let Ok(mut volume) = MemVolume::new(alloc, SHAPE) else {
        return false;
    };
    let mut sqnum = 7;
    let mut log = Log::at(&geometry, 3, 3, 0);
    let heads = [HeadAt {
        head: JournalHead::Base,
        lnum: 20,
        offs: 512,
    }];
    let Ok(()) = log.start_section(&mut volume, 5, &heads, &mut sqnum) else {
        return false;
    };
    let Ok(()) = log.end_section(&mut volume) else {
        return false;
    };
    let Ok(()) = log.open_bud(&mut volume, JournalHead::Data, 21, &mut sqnum) else {
        return false;
    };
    let Ok(read) = read_log(alloc, &mut volume, &geometry, 4) else {
        return false;
    };
    let bud = HeadAt {
        head: JournalHead::Data,
        lnum: 21,
        offs: 0,
    };
    (log.section(), sqnum) == (4, 10)
        && read.buds.as_slice() == [heads[0], bud].as_slice()
        && (read.commit, read.sqnum, read.lnum, read.offs, read.tail)
            == (Some(5), sqnum, 4, 1024, Tail::Clean)
}

fn ring_of_three_lebs_is_full(alloc: Global) -> bool {
    let Some(geometry) = ring_of_three() else {
        return false;
    };
    let Ok(mut volume) = MemVolume::new(alloc, SHAPE) else {
        return false;
    };
    let mut sqnum = 7;
    let mut log = Log::at(&geometry, 4, 4, 16384);
    let full = log.open_bud(&mut volume, JournalHead::Base, 20, &mut sqnum);
    full == Err(LogFault::Full { used: 1, limit: 1 }) && sqnum == 7
}

fn lebs_in_use_are_counted_round_the_ring(alloc: Global) -> bool {
    let Some(geometry) = small_geometry() else {
        return false;
    };
    let Ok(mut volume) = MemVolume::new(alloc, SHAPE) else {
        return false;
    };
    let mut sqnum = 7;
    let mut log = Log::at(&geometry, 5, 3, 16384);
    let full = log.open_bud(&mut volume, JournalHead::Base, 20, &mut sqnum);
    full == Err(LogFault::Full { used: 3, limit: 2 }) && sqnum == 7
}

fn next_leb_is_begun(alloc: Global) -> bool {
    let Some(geometry) = small_geometry() else {
        return false;
    };
    let Ok(mut volume) = MemVolume::new(alloc, SHAPE) else {
        return false;
    };
    let mut sqnum = 7;
    let mut log = Log::at(&geometry, 6, 6, 16384);
    let Ok(()) = log.open_bud(&mut volume, JournalHead::Base, 20, &mut sqnum) else {
        return false;
    };
    let Ok(read) = read_log(alloc, &mut volume, &geometry, 3) else {
        return false;
    };
    let bud = HeadAt {
        head: JournalHead::Base,
        lnum: 20,
        offs: 0,
    };
    read.buds.as_slice() == [bud].as_slice() && (read.lnum, read.offs, sqnum) == (3, 512, 8)
}

#[test]
fn logs_are_written(rt: HostRuntime) {
    let logs = [
        ("written section", written_section_is_read(rt.alloc())),
        ("ring of three", ring_of_three_lebs_is_full(rt.alloc())),
        (
            "round the ring",
            lebs_in_use_are_counted_round_the_ring(rt.alloc()),
        ),
        ("next LEB", next_leb_is_begun(rt.alloc())),
    ];
    for (log, is_right) in logs {
        assert!(rt; is_right, "{log}");
    }
}
