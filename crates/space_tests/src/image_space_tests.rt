// The space of an image, worked out by hand. Of 64 main LEBs, from LEB 10 on, 10 has two nodes of the index, of which one is full, and 11 and
// 15 have leaves. The log names 12 and 13 for the collector alone, 14 for it and for another head, and 15.

use fs_model::Space;
use image_space::space_of;
use index_tree::Leaf;
use media_sys::{Branch, RefNode};
use std::alloc::Global;
use ubifs_base::{Geometry, JournalHead, Key, Memory, RawGeometry};

fn node(offs: u32, len: u32) -> Branch {
    Branch {
        lnum: 10,
        offs,
        len,
        key: Key::Ino { ino: 1 },
    }
}

fn reference(lnum: u32, head: JournalHead) -> RefNode {
    RefNode {
        lnum,
        offs: 0,
        head,
    }
}

fn leaf(ino: u32, lnum: u32, len: u32) -> Leaf {
    Leaf {
        key: Key::Ino { ino },
        lnum,
        offs: 0,
        len,
    }
}

// 5 LEBs aren't empty: 10, 11, 13, 14 and 15. The lowest that the collector opened in vain is.
const WORKED: Space = Space {
    used: 216,
    held: 0,
    credits: 0,
    empty: 59,
    index: 1,
    weight: 7,
    main: 64,
};

fn is_as_worked(alloc: Global) -> Result<bool, Memory> {
    let Ok(geometry) = Geometry::new(&RawGeometry::plain(16384, 512, 64, 8)) else {
        return Err(Memory);
    };
    let nodes = [node(0, 188), node(192, 168)];
    let references = [
        reference(13, JournalHead::Collector),
        reference(12, JournalHead::Collector),
        reference(14, JournalHead::Collector),
        reference(14, JournalHead::Base),
        reference(15, JournalHead::Data),
    ];
    let leaves = [leaf(1, 11, 160), leaf(65, 15, 49)];
    let space = space_of(
        alloc,
        &geometry,
        nodes.as_slice(),
        references.as_slice(),
        leaves.as_slice(),
        4,
    )?;
    Ok(space == WORKED)
}

#[test]
fn a_space_is_as_worked(rt: HostRuntime) {
    assert_eq!(rt; is_as_worked(rt.alloc()), Ok(true));
}
