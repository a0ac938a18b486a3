// The sums of stores, worked by hand. LEBs have 16,384 bytes in units of 512, of which 10,080 count; 85 index nodes a LEB.

ghost use Rattle.space_sums.specs.Sums.{IsSmall, IsModest};

use fs_model::{Class, Need};
use space_sums::{Cause, Room, Scarce, Space, room, settled};
use ubifs_base::{Geometry, RawGeometry};

// The numbers of a store that holds nothing, unless it is said.
#[derive(Clone, Copy)]
struct Numbers {
    used: u32,
    held: u32,
    credits: u32,
    empty: u32,
    index: u32,
    weight: u32,
    main: u32,
}

// A volume that was just made: the root's inode, and an index of one node.
const FRESH: Numbers = Numbers {
    used: 160,
    held: 0,
    credits: 0,
    empty: 62,
    index: 1,
    weight: 1,
    main: 64,
};

fn space(of: Numbers) -> Space
    ensures { IsSmall result }
{
    Space {
        used: of.used as u64,
        held: of.held as u64,
        credits: of.credits as u64,
        empty: of.empty,
        index: of.index,
        weight: of.weight as u64,
        main: of.main,
    }
}

// What is asked for: nothing, a page that is made dirty, or the bytes and nodes of a name that goes.
#[derive(Clone, Copy)]
enum Asked {
    Nothing,
    Page,
    Removal(u32, u32),
}

fn need(asked: Asked) -> Need
    ensures { IsModest result }
{
    match asked {
        Asked::Nothing => Need {
            credits: 0,
            bytes: 0,
            nodes: 0,
            class: Class::Ordinary,
        },
        Asked::Page => Need {
            credits: 1,
            bytes: 0,
            nodes: 0,
            class: Class::Ordinary,
        },
        Asked::Removal(bytes, nodes) => Need {
            credits: 0,
            bytes: bytes as u64,
            nodes: nodes as u64,
            class: Class::Removal,
        },
    }
}

// A store, what is asked of it, and both sides.
const SIDES: &[(Numbers, Asked, u64, u64)] = &[
    // A nearly empty store with many credits, and one nearly full with none.
    (
        Numbers {
            used: 384,
            credits: 105,
            empty: 0,
            weight: 4,
            ..FRESH
        },
        Asked::Page,
        456608,
        453600,
    ),
    (
        Numbers {
            used: 435504,
            empty: 0,
            weight: 214,
            ..FRESH
        },
        Asked::Page,
        439808,
        453600,
    ),
    // A root, a file of 123 written pages and its name; the next page is refused.
    (WRITTEN, Asked::Page, 514400, 514080),
    (
        Numbers {
            used: 384 + 122 * 4144,
            ..WRITTEN
        },
        Asked::Page,
        510256,
        514080,
    ),
    (WRITTEN, Asked::Removal(288, 3), 510384, 554400),
    // A file of 600,000 bytes: 146 blocks of 4,096 bytes and one of 1,984, two inodes and a name.
    (
        Numbers {
            used: 146 * 4144 + 2032 + 160 + 160 + 64,
            empty: 20,
            weight: 43,
            ..FRESH
        },
        Asked::Nothing,
        607440,
        514080,
    ),
];

const WRITTEN: Numbers = Numbers {
    used: 384 + 123 * 4144,
    empty: 25,
    weight: 31,
    ..FRESH
};

// Three main LEBs, as a real mkfs packs a small tree.
const PACKED: Numbers = Numbers {
    empty: 1,
    main: 3,
    ..FRESH
};

// (64 - 3 - 6) * 10,080 bytes.
const FULL: Numbers = Numbers {
    used: 554300,
    held: 100,
    ..FRESH
};

// An index of 85 nodes takes a LEB, and one of 86 two.
const HEAVY: Numbers = Numbers {
    empty: 2,
    index: 2,
    weight: 85,
    ..FRESH
};

// A store, and what it lacks: what, how much of it, and how much there is.
const SETTLED: &[(Numbers, Option<(Scarce, u64, u64)>)] = &[
    (FRESH, None),
    (Numbers { empty: 3, ..FRESH }, None),
    // It has no room for leaves, and one empty LEB is too few as well.
    (PACKED, Some((Scarce::Space, 160, 0))),
    (Numbers { main: 64, ..PACKED }, Some((Scarce::Empty, 2, 1))),
    (
        Numbers {
            main: 64,
            empty: 2,
            ..PACKED
        },
        Some((Scarce::Index, 4, 3)),
    ),
    // Held bytes count.
    (FULL, None),
    (
        Numbers { held: 101, ..FULL },
        Some((Scarce::Space, 554401, 554400)),
    ),
    // A heavier index takes more LEBs.
    (HEAVY, None),
    (
        Numbers {
            weight: 86,
            ..HEAVY
        },
        Some((Scarce::Empty, 3, 2)),
    ),
    (
        Numbers {
            weight: 86,
            empty: 4,
            ..HEAVY
        },
        Some((Scarce::Index, 7, 6)),
    ),
];

fn cause(of: Option<(Scarce, u64, u64)>) -> Option<Cause> {
    let (what, need, room) = of?;
    Some(Cause::Tight { what, need, room })
}

#[test]
fn sides_and_wants_are_as_worked(rt: HostRuntime) {
    let Ok(geo) = Geometry::new(&RawGeometry::plain(16384, 512, 64, 8)) else {
        panic!(&rt; "the geometry is in range");
    };
    for (numbers, asked, need_bytes, limit) in SIDES {
        let sides = Room {
            need: *need_bytes,
            limit: *limit,
        };
        assert_eq!(rt; room(&geo, &space(*numbers), &need(*asked)), sides);
    }
    for (numbers, wants) in SETTLED {
        assert_eq!(rt; settled(&geo, &space(*numbers)), cause(*wants));
    }
}
