// Trees of properties in a volume in memory.

ghost use Rattle.std.specs.Prelude.{◌≡◌, IfSome};
ghost use Rattle.ubifs_base.specs.Geometry.{plain_geometry};
ghost use Rattle.ubifs_base.specs.RawOf.{raw_of};
ghost use Rattle.lpt_area.specs.Written.{IsLprop, AreProps};

use lpt_area::{LptAt, read_tree, write_tree};
use media_lpt::Lprop;
use std::alloc::Global;
use ubi_volume::{MemVolume, VolShape, Volume};
use ubifs_base::{Geometry, RawGeometry};

const SHAPE: VolShape = VolShape {
    leb_size: 16384,
    min_io: 512,
    leb_cnt: 74,
};

const EMPTY: Lprop = Lprop {
    free: 16384,
    dirty: 0,
    index: false,
};

// 16 pnodes of 15 bytes, 5 nnodes of 11 and an ltab of 10: the root is the last nnode.
const FIRST: LptAt = LptAt {
    lnum: 7,
    offs: 284,
    ltab_lnum: 7,
    ltab_offs: 295,
    nhead_lnum: 7,
    nhead_offs: 512,
};

fn geometry() -> Option<Geometry>
    ensures { IfSome result (λ geo. raw_of geo ≡ plain_geometry 16384 512 64 8) }
{
    Geometry::new(&RawGeometry::plain(16384, 512, 64, 8)).ok()
}

// All LEBs alike.
fn all_alike(prop: Lprop) -> [Lprop; 64]
    requires { IsLprop (plain_geometry 16384 512 64 8) prop }
    ensures { AreProps (plain_geometry 16384 512 64 8) result }
{
    [prop; 64]
}

// Two trees, one behind the other: each is read, and the first stays.
fn next_tree_goes_to_the_other_leb(alloc: Global) -> bool {
    let Some(geo) = geometry() else {
        return false;
    };
    let Ok(mut volume) = MemVolume::new(alloc, SHAPE) else {
        return false;
    };
    let full = Lprop {
        free: 512,
        dirty: 40,
        index: true,
    };
    let first = all_alike(full);
    let used = Lprop {
        free: 0,
        dirty: 8,
        index: false,
    };
    let second = all_alike(used);
    let Ok(one) = write_tree(alloc, &mut volume, &geo, &first, 8) else {
        return false;
    };
    let Ok(two) = write_tree(alloc, &mut volume, &geo, &second, 7) else {
        return false;
    };
    let Ok(Some(old)) = read_tree(alloc, &mut volume, &geo, &one) else {
        return false;
    };
    let Ok(Some(new)) = read_tree(alloc, &mut volume, &geo, &two) else {
        return false;
    };
    one == FIRST
        && (two.lnum, two.offs) == (8, 284)
        && old.as_slice() == first.as_slice()
        && new.as_slice() == second.as_slice()
}

// The first and the last pnode, the ltab's last byte, and an unwritten one.
fn tree_begins_with_its_pnodes(alloc: Global) -> bool {
    let Some(geo) = geometry() else {
        return false;
    };
    let Ok(mut volume) = MemVolume::new(alloc, SHAPE) else {
        return false;
    };
    let Ok(_at) = write_tree(alloc, &mut volume, &geo, &all_alike(EMPTY), 8) else {
        return false;
    };
    let mut leb = [0u8; 306];
    let Ok(()) = volume.read(7, 0, &mut leb) else {
        return false;
    };
    let pnode = [0xbb, 0x59, 0, 0x80, 0, 0, 0, 1, 0, 0, 2, 0, 0, 4, 0];
    &leb[..15] == pnode.as_slice()
        && &leb[225..240] == pnode.as_slice()
        && &leb[304..] == [0, 0xff].as_slice()
}

// A bit in the first pnode, in the first nnode, in the root, and in the ltab, which isn't read.
const BITS: &[(usize, bool)] = &[(14, false), (240, false), (284, false), (295, true)];

// Whether a tree with a flipped bit is read, and None where there is no answer.
fn is_tree_but_for(alloc: Global, place: usize) -> Option<bool> {
    let geo = geometry()?;
    let Ok(mut volume) = MemVolume::new(alloc, SHAPE) else {
        return None;
    };
    let Ok(at) = write_tree(alloc, &mut volume, &geo, &all_alike(EMPTY), 8) else {
        return None;
    };
    let mut leb = [0u8; 512];
    let Ok(()) = volume.read(7, 0, &mut leb) else {
        return None;
    };
    leb[place % 512] ^= 1;
    let Ok(()) = volume.change(7, &leb) else {
        return None;
    };
    let Ok(found) = read_tree(alloc, &mut volume, &geo, &at) else {
        return None;
    };
    Some(found.is_some())
}

// The root's LEB and offset, and whether a tree of empty LEBs is there.
const ROOTS: &[(u32, u32, bool)] = &[
    (8, 0, true),
    (8, 16374, false),
    (6, 0, false),
    (9, 0, false),
];

// Whether the tree at a root that is an nnode of four times 'none' says that LEBs are empty.
fn says_empty(alloc: Global, lnum: u32, offs: u32) -> Option<bool> {
    let geo = geometry()?;
    let mut unit = [0u8; 512];
    unit[0] = 0x3f;
    unit[1] = 0x6e;
    unit[2] = 0x21;
    unit[4] = 0x20;
    unit[6] = 0x20;
    unit[8] = 0x20;
    let Ok(mut volume) = MemVolume::new(alloc, SHAPE) else {
        return None;
    };
    let Ok(()) = volume.change(8, &unit) else {
        return None;
    };
    let at = LptAt {
        lnum,
        offs,
        ..FIRST
    };
    let Ok(found) = read_tree(alloc, &mut volume, &geo, &at) else {
        return None;
    };
    match found {
        Some(props) => Some(props[0] == EMPTY && props[63] == EMPTY),
        None => Some(false),
    }
}

#[test]
fn trees_are_written_and_read(rt: HostRuntime) {
    assert!(rt; next_tree_goes_to_the_other_leb(rt.alloc()));
    assert!(rt; tree_begins_with_its_pnodes(rt.alloc()));
}

#[test]
fn one_flipped_bit_is_no_tree(rt: HostRuntime) {
    for (place, is_tree) in BITS {
        assert_eq!(rt; is_tree_but_for(rt.alloc(), *place), Some(*is_tree));
    }
}

#[test]
fn no_place_says_empty(rt: HostRuntime) {
    for (lnum, offs, is_tree) in ROOTS {
        assert_eq!(rt; says_empty(rt.alloc(), *lnum, *offs), Some(*is_tree));
    }
}
