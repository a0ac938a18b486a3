// Logs in a volume in memory, with LEBs of 16,384 bytes and the log in LEBs 3 to 6.

ghost use Rattle.std.specs.Prelude.{◌≡◌, ◌<◌, length};
ghost use Rattle.ubi_volume.specs.Volume.{SameShape};

use bud_log::{HeadAt, LogRead, read_log};
use leb_scan::Tail;
use media_sys::{CommitStart, RefNode};
use std::alloc::Global;
use ubi_volume::{MemVolume, VolFault, VolShape, Volume};
use ubifs_base::{Geometry, JournalHead, RawGeometry};

const SHAPE: VolShape = VolShape {
    leb_size: 16384,
    min_io: 512,
    leb_cnt: 7,
};

// A commit start of a sequence number, a reference of one with head, LEB and offset, or eight bytes that are nothing.
#[derive(Clone, Copy)]
enum Laid {
    Start(u64),
    Bud(u64, JournalHead, u32, u32),
    Torn,
}

use JournalHead::{Base, Collector, Data};
use Laid::{Bud, Start, Torn};

// The nodes of the log's four LEBs, the LEB from which it is read, the head, LEB and offset of each bud, and the end.
#[derive(Clone, Copy)]
struct Case<'a> {
    lebs: [&'a [Laid]; 4],
    from: u32,
    buds: &'a [(JournalHead, u32, u32)],
    end: (u32, u32, Tail),
}

const FIRST: &[Laid] = &[Start(10), Bud(11, Base, 20, 0)];

const MORE: &[Laid] = &[Bud(12, Data, 21, 0)];

const SECOND: &[Laid] = &[Start(12), Bud(13, Base, 20, 4096), Bud(14, Data, 22, 0)];

const RING: [&[Laid]; 4] = [
    &[Bud(11, Collector, 20, 0)],
    &[Bud(12, Base, 21, 0)],
    &[Bud(13, Data, 22, 0)],
    &[Start(10)],
];

// References name buds.
const NAMED: &[Case<'static>] = &[
    // A commit start alone.
    Case {
        lebs: [&[Start(10)], &[], &[], &[]],
        from: 3,
        buds: &[],
        end: (3, 1024, Tail::Clean),
    },
    // The three heads.
    Case {
        lebs: [
            &[
                Start(10),
                Bud(11, Collector, 20, 512),
                Bud(12, Base, 30, 0),
                Bud(13, Data, 25, 4096),
            ],
            &[],
            &[],
            &[],
        ],
        from: 3,
        buds: &[(Collector, 20, 512), (Base, 30, 0), (Data, 25, 4096)],
        end: (3, 1024, Tail::Clean),
    },
    // A LEB that is named twice: its first head, and the least offset.
    Case {
        lebs: [
            &[
                Start(10),
                Bud(11, Collector, 20, 512),
                Bud(12, Base, 21, 512),
                Bud(13, Data, 20, 0),
                Bud(14, Base, 21, 1024),
            ],
            &[],
            &[],
            &[],
        ],
        from: 3,
        buds: &[(Collector, 20, 0), (Base, 21, 512)],
        end: (3, 1024, Tail::Clean),
    },
    // A reference to an offset that is no multiple of 8, and one to no main LEB, are told as they stand.
    Case {
        lebs: [
            &[Start(10), Bud(11, Data, 20, 68), Bud(12, Base, 1, 0)],
            &[],
            &[],
            &[],
        ],
        from: 3,
        buds: &[(Data, 20, 68), (Base, 1, 0)],
        end: (3, 1024, Tail::Clean),
    },
    // A torn end.
    Case {
        lebs: [
            &[
                Start(10),
                Bud(11, Collector, 20, 0),
                Torn,
                Bud(12, Base, 21, 0),
            ],
            &[],
            &[],
            &[],
        ],
        from: 3,
        buds: &[(Collector, 20, 0)],
        end: (3, 96, Tail::Torn),
    },
];

// Reading goes on where numbers are greater.
const GOING_ON: &[Case<'static>] = &[
    // A section goes on in the next LEB.
    Case {
        lebs: [FIRST, MORE, &[], &[]],
        from: 3,
        buds: &[(Base, 20, 0), (Data, 21, 0)],
        end: (4, 1024, Tail::Clean),
    },
    // An older section, and one that begins with the same number, isn't read.
    Case {
        lebs: [FIRST, &[Start(9), Bud(12, Data, 21, 0)], MORE, &[]],
        from: 3,
        buds: &[(Base, 20, 0)],
        end: (3, 1024, Tail::Clean),
    },
    Case {
        lebs: [FIRST, &[Start(10), Bud(12, Data, 21, 0)], MORE, &[]],
        from: 3,
        buds: &[(Base, 20, 0)],
        end: (3, 1024, Tail::Clean),
    },
    // Nor is a LEB in which the first node doesn't stand at its start.
    Case {
        lebs: [FIRST, &[Torn, Bud(12, Data, 21, 0)], MORE, &[]],
        from: 3,
        buds: &[(Base, 20, 0)],
        end: (3, 1024, Tail::Clean),
    },
];

// Sections of unfinished commits are read.
const UNFINISHED: &[Case<'static>] = &[
    Case {
        lebs: [FIRST, SECOND, &[], &[]],
        from: 3,
        buds: &[(Base, 20, 0), (Data, 22, 0)],
        end: (4, 1024, Tail::Clean),
    },
    // One that is a commit start alone isn't where the log ends.
    Case {
        lebs: [FIRST, &[Start(12)], &[], &[]],
        from: 3,
        buds: &[(Base, 20, 0)],
        end: (3, 1024, Tail::Clean),
    },
    Case {
        lebs: [FIRST, SECOND, &[Start(15)], &[]],
        from: 3,
        buds: &[(Base, 20, 0), (Data, 22, 0)],
        end: (4, 1024, Tail::Clean),
    },
];

// Reading goes round the ring once.
const ROUND: &[Case<'static>] = &[
    Case {
        lebs: RING,
        from: 6,
        buds: &[(Collector, 20, 0), (Base, 21, 0), (Data, 22, 0)],
        end: (5, 1024, Tail::Clean),
    },
    // A LEB that begins with no commit start is read alone.
    Case {
        lebs: RING,
        from: 4,
        buds: &[(Base, 21, 0)],
        end: (4, 1024, Tail::Clean),
    },
];

const CASES: &[&[Case<'static>]] = &[NAMED, GOING_ON, UNFINISHED, ROUND];

const WITH_THIRTY: &[Laid] = &[Start(10), Bud(30, Base, 20, 0), Bud(12, Data, 21, 0)];

// The nodes of four LEBs, and the greatest sequence number of what is read of them from LEB 3 on.
const NUMBERS: &[([&[Laid]; 4], u64)] = &[
    ([&[], WITH_THIRTY, &[], &[]], 0),
    // The last node needn't have it.
    ([WITH_THIRTY, &[], &[], &[]], 30),
    // An older section isn't read, nor what stands behind a torn end; a commit start alone is.
    (
        [WITH_THIRTY, &[Start(9), Bud(40, Data, 22, 0)], &[], &[]],
        30,
    ),
    (
        [
            WITH_THIRTY,
            &[Start(31), Torn, Bud(40, Data, 22, 0)],
            &[],
            &[],
        ],
        31,
    ),
];

// The nodes one behind another, and padding bytes to the end.
fn lay(nodes: &[Laid], leb: &mut [u8])
    requires { length leb.old ≡ 1024 }
    ensures { length leb.new ≡ 1024 }
{
    leb.fill(0xce);
    let mut place = 0;
    for node in nodes {
        if place > 960 {
            return;
        }
        let rest = leb.split_at_mut(place).1;
        match node {
            Start(sqnum) => {
                CommitStart { cmt_no: 1 }.encode(*sqnum, 0, rest.split_at_mut(32).0);
                place += 32;
            }
            Bud(sqnum, head, lnum, offs) => {
                let node = RefNode {
                    lnum: *lnum,
                    offs: *offs,
                    head: *head,
                };
                node.encode(*sqnum, 0, rest.split_at_mut(64).0);
                place += 64;
            }
            Torn => {
                rest.split_at_mut(8).0.fill(0);
                place += 8;
            }
        }
    }
}

// Puts nodes into a LEB; without any it stays unwritten.
fn put<V: Volume>(volume: &mut V, lnum: u32, nodes: &[Laid]) -> Result<(), VolFault>
    requires lnum { lnum < (V.state volume.old).leb_cnt }
    requires size { (V.state volume.old).leb_size ≡ 16384 }
    requires unit { (V.state volume.old).min_io ≡ 512 }
    ensures shape { SameShape (V.state volume.old) (V.state volume.new) }
{
    if nodes.is_empty() {
        return volume.unmap(lnum);
    }
    let mut leb = [0u8; 1024];
    lay(nodes, &mut leb);
    volume.change(lnum, &leb)
}

// What is read of a log with these nodes in its four LEBs, from this LEB on.
fn read(alloc: Global, lebs: &[&[Laid]; 4], from: u32) -> Option<LogRead> {
    let Ok(geometry) = Geometry::new(&RawGeometry::plain(16384, 512, 64, 8)) else {
        return None;
    };
    if from < 3 || from > 6 {
        return None;
    }
    let Ok(mut volume) = MemVolume::new(alloc, SHAPE) else {
        return None;
    };
    if put(&mut volume, 3, lebs[0]).is_err()
        || put(&mut volume, 4, lebs[1]).is_err()
        || put(&mut volume, 5, lebs[2]).is_err()
        || put(&mut volume, 6, lebs[3]).is_err()
    {
        return None;
    }
    read_log(alloc, &mut volume, &geometry, from).ok()
}

fn are_buds(found: &[HeadAt], wanted: &[(JournalHead, u32, u32)]) -> bool {
    if found.len() != wanted.len() {
        return false;
    }
    for (found, wanted) in found.iter().zip(wanted) {
        if (found.head, found.lnum, found.offs) != *wanted {
            return false;
        }
    }
    true
}

fn is_read_so(alloc: Global, case: &Case<'_>) -> bool {
    match read(alloc, &case.lebs, case.from) {
        Some(log) => are_buds(&log.buds, case.buds) && (log.lnum, log.offs, log.tail) == case.end,
        None => false,
    }
}

fn greatest_number(alloc: Global, lebs: &[&[Laid]; 4]) -> Option<u64> {
    let log = read(alloc, lebs, 3)?;
    Some(log.sqnum)
}

#[test]
fn logs_are_read(rt: HostRuntime) {
    for cases in CASES {
        for (number, case) in cases.iter().enumerate() {
            assert!(rt; is_read_so(rt.alloc(), case), "case {number}");
        }
    }
}

#[test]
fn greatest_number_of_what_is_read_is_told(rt: HostRuntime) {
    for (lebs, wanted) in NUMBERS {
        assert_eq!(rt; greatest_number(rt.alloc(), lebs), Some(*wanted));
    }
}
