// Which LEB is picked, and what all add up to: tables worked out by hand. Of six main LEBs of 16,384 bytes the first is LEB 10.

ghost use Rattle.std.specs.Prelude.{◌≡◌, ◌+◌, ◌≤◌, ◌<◌, IfOk};
ghost use Rattle.ubifs_base.specs.RawOf.{raw_of};
ghost use Rattle.lprops_tree.specs.MainArea.{IsMainLeb, IsWithinLeb};

use lprops_tree::{Props, Totals};
use media_lpt::{LebKind, Lprop};
use std::alloc::Global;
use ubifs_base::{Geometry, Memory, RawGeometry};

// What a LEB is for, and how many of its bytes are used.
type Row = (LebKind, u32);

// A LEB is set, or what is asked and the answer: the lowest free LEB, the victim with at most so many used bytes, the totals, and the
// properties of a LEB.
#[derive(Clone, Copy)]
enum Step {
    Set(u32, Row),
    Empty(Option<u32>),
    Victim(u32, Option<u32>),
    Sums(Totals),
    Leb(u32, Lprop, LebKind),
}

use LebKind::Leaf;
use Step::{Empty, Leb, Set, Sums, Victim};

const FREE: Row = (LebKind::Free, 0);

const BUD: Row = (LebKind::Bud, 160);

const INDEX: Row = (LebKind::Index, 192);

const TAKEN: Row = (LebKind::Taken, 0);

// The first LEBs, of which all others are taken, with nothing used, and the steps.
const TREES: &[(&[Row], &[Step])] = &[
    // Of several kinds and used bytes: the lowest free LEB, and the victim with at most 11,104 used bytes.
    (&[], &[Empty(None), Victim(11104, None)]),
    (&[FREE], &[Empty(Some(10)), Victim(11104, None)]),
    (
        &[BUD, TAKEN, FREE, INDEX, FREE],
        &[Empty(Some(12)), Victim(11104, None)],
    ),
    (
        &[BUD, (Leaf, 800), INDEX, (Leaf, 640), FREE, (Leaf, 720)],
        &[Empty(Some(14)), Victim(11104, Some(13))],
    ),
    (
        &[
            (Leaf, 640),
            (Leaf, 640),
            (Leaf, 640),
            (Leaf, 640),
            (Leaf, 640),
            (Leaf, 640),
        ],
        &[Empty(None), Victim(11104, Some(10))],
    ),
    (
        &[
            (Leaf, 720),
            FREE,
            (Leaf, 640),
            (Leaf, 800),
            (Leaf, 640),
            FREE,
        ],
        &[Empty(Some(11)), Victim(11104, Some(12))],
    ),
    (
        &[TAKEN, (Leaf, 11112), (Leaf, 16384), BUD],
        &[Empty(None), Victim(11104, None)],
    ),
    (
        &[TAKEN, (Leaf, 11112), (Leaf, 11104), BUD],
        &[Empty(None), Victim(11104, Some(12))],
    ),
    (
        &[(Leaf, 0), FREE, (Leaf, 8)],
        &[Empty(Some(11)), Victim(11104, Some(10))],
    ),
    // A victim is collected, and then the next one, until none is left; what was free last is picked by its number.
    (
        &[
            (Leaf, 720),
            (Leaf, 80),
            (Leaf, 640),
            (LebKind::Bud, 8),
            (Leaf, 88),
            (Leaf, 8),
        ],
        &[
            Victim(1000, Some(15)),
            Set(15, FREE),
            Victim(1000, Some(11)),
            Set(11, FREE),
            Victim(1000, Some(14)),
            Set(14, FREE),
            Victim(1000, Some(12)),
            Set(12, FREE),
            Victim(1000, Some(10)),
            Set(10, FREE),
            Victim(1000, None),
            Empty(Some(10)),
            Set(10, (Leaf, 16384)),
            Empty(Some(11)),
            Set(11, (Leaf, 16384)),
            Empty(Some(12)),
            Set(12, (Leaf, 16384)),
            Empty(Some(14)),
            Set(14, (Leaf, 16384)),
            Empty(Some(15)),
            Set(15, (Leaf, 16384)),
            Empty(None),
            Victim(16383, None),
            Victim(16384, Some(10)),
        ],
    ),
    // What is set is got, and the totals are sums over all LEBs.
    (
        &[(Leaf, 720), FREE, INDEX, BUD],
        &[
            Sums(Totals {
                free: 16384,
                dirty: 15664 + 16192 + 16224 + 2 * 16384,
                used: 880,
                empty: 1,
                index: 1,
            }),
            Set(13, FREE),
            Sums(Totals {
                free: 2 * 16384,
                dirty: 15664 + 16192 + 2 * 16384,
                used: 720,
                empty: 2,
                index: 1,
            }),
            Leb(
                12,
                Lprop {
                    free: 0,
                    dirty: 16192,
                    index: true,
                },
                LebKind::Index,
            ),
        ],
    ),
];

// A LEB of which so many bytes are used: a free one is all free, and of any other the rest is dirty.
fn leb(geo: &Geometry, row: Row) -> (Lprop, LebKind)
    ensures { IsWithinLeb (raw_of geo.now) result.0 }
{
    let rest = geo.leb_size.saturating_sub(row.1);
    let index = row.0 == LebKind::Index;
    let (free, dirty) = if row.0 == LebKind::Free {
        (rest, 0)
    } else {
        (0, rest)
    };
    (Lprop { free, dirty, index }, row.0)
}

// Sets a LEB, if there is one of this number.
fn change(geo: &Geometry, props: &mut Props, lnum: u32, row: Row)
    requires { props.old.geo ≡ raw_of geo.now }
    ensures { props.new.geo ≡ raw_of geo.now }
{
    if lnum >= geo.main_first() && lnum < geo.leb_cnt {
        let leb = leb(geo, row);
        props.set(lnum, leb.0, leb.1);
    }
}

fn props_of(alloc: Global, geo: &Geometry, rows: &[Row]) -> Result<Props, Memory>
    ensures { IfOk result (λ props. props.geo ≡ raw_of geo.now) }
{
    let list = vec![in alloc; leb(geo, TAKEN); geo.main_lebs() as usize]?;
    let mut props = Props::from_list(alloc, geo, &list)?;
    let mut lnum = geo.main_first();
    for row in rows {
        change(geo, &mut props, lnum, *row);
        lnum = lnum.wrapping_add(1);
    }
    Ok(props)
}

// Whether a LEB of this number is there, and has these properties.
fn has(geo: &Geometry, props: &Props, lnum: u32, wanted: (Lprop, LebKind)) -> bool
    requires { props.now.geo ≡ raw_of geo.now }
{
    lnum >= geo.main_first() && lnum < geo.leb_cnt && props.get(lnum) == wanted
}

fn is_answered(geo: &Geometry, props: &mut Props, step: Step) -> bool
    requires { props.old.geo ≡ raw_of geo.now }
    ensures { props.new.geo ≡ raw_of geo.now }
{
    match step {
        Set(lnum, row) => {
            change(geo, props, lnum, row);
            true
        }
        Empty(wanted) => props.pick_empty() == wanted,
        Victim(most, wanted) => props.pick_victim(most) == wanted,
        Sums(wanted) => props.totals() == wanted,
        Leb(lnum, prop, kind) => has(geo, props, lnum, (prop, kind)),
    }
}

// The first step that isn't answered so.
fn first_wrong(alloc: Global, rows: &[Row], steps: &[Step]) -> Result<Option<usize>, Memory> {
    let Ok(geo) = Geometry::new(&RawGeometry::plain(16384, 512, 6, 8)) else {
        return Err(Memory);
    };
    let mut props = props_of(alloc, &geo, rows)?;
    for (number, step) in steps.iter().enumerate() {
        if !is_answered(&geo, &mut props, *step) {
            return Ok(Some(number));
        }
    }
    Ok(None)
}

#[test]
fn each_step_is_answered(rt: HostRuntime) {
    for (number, (rows, steps)) in TREES.iter().enumerate() {
        assert_eq!(rt;
            first_wrong(rt.alloc(), rows, steps),
            Ok(None),
            "tree {number}"
        );
    }
}
