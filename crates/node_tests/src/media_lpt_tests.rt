// Outside vectors, packed by a program of another language.

ghost use Rattle.std.specs.Prelude.{◌≡◌, ◌∷◌, [], map};
ghost use Rattle.ubifs_base.specs.Properties.{pnode_count, tree_height, level_nodes};
ghost use Rattle.media_lpt.specs.BigModel.{big_geometry};

use media_lpt::{Lprop, LptPlace, LptRow, Lsave, Ltab, Nnode, Pnode};
use std::alloc::Global;
use ubifs_base::{Geometry, RawGeometry};

// A LEB of 16384 bytes that is empty.
const EMPTY: Lprop = Lprop {
    free: 16384,
    dirty: 0,
    index: false,
};

const NONE: LptPlace = LptPlace { lnum: 0, offs: 0 };

fn small() -> Option<Geometry> {
    Geometry::new(&RawGeometry::plain(16384, 512, 64, 8)).ok()
}

fn big() -> Option<Geometry> {
    let raw = RawGeometry {
        leb_size: 16384,
        min_io: 512,
        log_lebs: 4,
        lpt_lebs: 4,
        orph_lebs: 1,
        leb_cnt: 524,
        max_leb_cnt: 524,
        fanout: 8,
        lsave_cnt: 3,
        big: true,
    };
    Geometry::new(&raw).ok()
}

// The tree of 64 main LEBs and that of 4,096: its height, and the nodes of each level, the pnodes' first.
#[tactic(auto, unfolding(ubifs_base::specs::Properties::tree_height, ubifs_base::specs::Properties::height_from))]
fn levels()
    ensures small { (tree_height 16 ≡ 2) × (map (level_nodes 16) (0 ∷ 1 ∷ 2 ∷ []) ≡ 16 ∷ 4 ∷ 1 ∷ []) }
    ensures big { (tree_height (pnode_count big_geometry) ≡ 5) × (map (level_nodes (pnode_count big_geometry)) (0 ∷ 1 ∷ 2 ∷ 3 ∷ 4 ∷ 5 ∷ []) ≡ 1024 ∷ 256 ∷ 64 ∷ 16 ∷ 4 ∷ 1 ∷ []) }
{}

fn has_pnode(geo: &Geometry) -> bool {
    let bytes = [0xbb, 0x59, 0, 0x80, 0, 0, 0, 1, 0, 0, 2, 0, 0, 4, 0];
    let Some(node) = Pnode::decode(geo, &bytes) else {
        return false;
    };
    if geo.pnode_len() != 15 {
        return false;
    }
    let mut out = [0xff; 15];
    node.encode(geo, &mut out);
    out == bytes
        && node
            == Pnode {
                num: 0,
                props: [EMPTY; 4],
            }
        && Pnode::decode(geo, &bytes[..14]).is_none()
}

fn has_nnode(geo: &Geometry) -> bool {
    let bytes = [7, 0x50, 1, 0, 0xc0, 3, 0xd0, 0xff, 0x2f, 0, 0];
    let Some(node) = Nnode::decode(geo, &bytes) else {
        return false;
    };
    if geo.nnode_len() != 11 {
        return false;
    }
    let mut out = [0xff; 11];
    node.encode(geo, &mut out);
    let places = [
        LptPlace { lnum: 7, offs: 0 },
        LptPlace { lnum: 7, offs: 15 },
        LptPlace {
            lnum: 8,
            offs: 16383,
        },
        NONE,
    ];
    out == bytes && node == Nnode { num: 0, places }
}

// With a one behind the last field, and with a LEB behind the area.
fn has_no_other_nnode(geo: &Geometry) -> bool {
    let stray = [6, 0x9c, 1, 0, 0xc0, 3, 0xd0, 0xff, 0x2f, 0, 0x10];
    let behind = [0x53, 0x51, 0x31, 0, 0xc0, 3, 0xd0, 0xff, 0x2f, 0, 0];
    Nnode::decode(geo, &stray).is_none() && Nnode::decode(geo, &behind).is_none()
}

const ROWS: [LptRow; 2] = [
    LptRow {
        free: 15360,
        dirty: 512,
    },
    LptRow {
        free: 16384,
        dirty: 0,
    },
];

fn has_ltab(alloc: Global, geo: &Geometry) -> bool {
    let bytes = [0xc1, 0xbe, 2, 0xc0, 3, 0x10, 0, 0, 1, 0];
    let Ok(Some(table)) = Ltab::decode(alloc, geo, &bytes) else {
        return false;
    };
    if geo.ltab_len() != 10 {
        return false;
    }
    let mut out = [0xff; 10];
    table.encode(geo, &mut out);
    out == bytes
        && table.rows() == ROWS.as_slice()
        && Ltab::from_vec(table.into_vec()).rows().len() == 2
}

fn has_big_pnode(geo: &Geometry) -> bool {
    let bytes = [
        0xc6, 0x93, 0x10, 0x58, 0, 7, 0xb0, 0, 0xe, 0x60, 1, 0x1c, 0xc0, 2, 0x38, 0x80,
    ];
    let prop = Lprop {
        free: 40,
        dirty: 56,
        index: true,
    };
    Pnode::decode(geo, &bytes)
        == Some(Pnode {
            num: 129,
            props: [prop; 4],
        })
}

fn has_big_nnode(geo: &Geometry) -> bool {
    let bytes = [0x43, 0x37, 0x31, 0, 0, 0x60, 0x10, 0, 1, 0, 2, 0];
    let places = [
        LptPlace { lnum: 7, offs: 0 },
        LptPlace { lnum: 10, offs: 16 },
        NONE,
        NONE,
    ];
    Nnode::decode(geo, &bytes) == Some(Nnode { num: 3, places })
}

fn has_lsave(alloc: Global, geo: &Geometry) -> bool {
    let bytes = [0x21, 0x39, 0xc3, 0xc0, 0x82, 0x2c, 1];
    let Ok(Some(table)) = Lsave::decode(alloc, geo, &bytes) else {
        return false;
    };
    if Lsave::len(geo) != 7 {
        return false;
    }
    let mut out = [0xff; 7];
    table.encode(geo, &mut out);
    out == bytes
        && table.lnums() == [12, 523, 300].as_slice()
        && Lsave::from_vec(table.into_vec()).lnums().len() == 3
}

#[test]
fn nodes_of_both_models(rt: HostRuntime) {
    levels();
    let (Some(small), Some(big)) = (small(), big()) else {
        panic!(&rt; "the geometries are in range");
    };
    let nodes = [
        ("pnode", has_pnode(&small)),
        ("nnode", has_nnode(&small)),
        ("other nnodes", has_no_other_nnode(&small)),
        ("ltab", has_ltab(rt.alloc(), &small)),
        ("big pnode", has_big_pnode(&big)),
        ("big nnode", has_big_nnode(&big)),
        ("lsave", has_lsave(rt.alloc(), &big)),
    ];
    for (node, is_right) in nodes {
        assert!(rt; is_right, "{node}");
    }
}
