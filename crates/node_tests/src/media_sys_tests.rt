// Nodes worked out by hand from the layout of ubifs-media.h, their checksums by zlib's crc32.

use media_sys::*;
use node_fields::u32_at;
use std::alloc::Global;
use ubifs_base::{JournalHead, Key, Memory};

// Head 2 goes on in LEB 12 from 4096 on: sequence number 11.
const REFERENCE: &[u8; 64] =
    b"\x31\x18\x10\x06\x11\xbd\x5f\xdd\x0b\x00\x00\x00\x00\x00\x00\x00\x40\x00\x00\x00\
    \x08\x00\x00\x00\x0c\x00\x00\x00\x00\x10\x00\x00\x02\x00\x00\x00\x00\x00\x00\x00\
    \x00\x00\x00\x00\x00\x00\x00\x00\x00\x00\x00\x00\x00\x00\x00\x00\x00\x00\x00\x00\
    \x00\x00\x00\x00";

// Commit 5 begins: sequence number 12.
const COMMIT_START: &[u8; 32] =
    b"\x31\x18\x10\x06\x46\x0a\xdd\x52\x0c\x00\x00\x00\x00\x00\x00\x00\x20\x00\x00\x00\
    \x0a\x00\x00\x00\x05\x00\x00\x00\x00\x00\x00\x00";

// 100 bytes are passed over: sequence number 0.
const PADDING: &[u8; 28] =
    b"\x31\x18\x10\x06\x3f\xaa\x9c\x05\x00\x00\x00\x00\x00\x00\x00\x00\x1c\x00\x00\x00\
    \x05\x00\x00\x00\x64\x00\x00\x00";

// Inode 65 and its block 3, in LEB 20 at 0 and 160: sequence number 13.
const INDEX: &[u8; 68] =
    b"\x31\x18\x10\x06\xd1\xfe\x6a\x14\x0d\x00\x00\x00\x00\x00\x00\x00\x44\x00\x00\x00\
    \x09\x00\x00\x00\x02\x00\x00\x00\x14\x00\x00\x00\x00\x00\x00\x00\xa0\x00\x00\x00\
    \x41\x00\x00\x00\x00\x00\x00\x00\x14\x00\x00\x00\xa0\x00\x00\x00\x33\x00\x00\x00\
    \x41\x00\x00\x00\x03\x00\x00\x20";

// Inodes 65 and 66, the last orphans of commit 6: sequence number 14.
const ORPHANS: &[u8; 48] =
    b"\x31\x18\x10\x06\x16\x45\x9c\xf0\x0e\x00\x00\x00\x00\x00\x00\x00\x30\x00\x00\x00\
    \x0b\x00\x00\x00\x06\x00\x00\x00\x00\x00\x00\x80\x41\x00\x00\x00\x00\x00\x00\x00\
    \x42\x00\x00\x00\x00\x00\x00\x00";

fn is_reference(alloc: Global) -> bool {
    let node = RefNode {
        lnum: 12,
        offs: 4096,
        head: JournalHead::Data,
    };
    let mut out = [0xff; 64];
    node.encode(11, 0, &mut out);
    node.len() == 64
        && out.as_slice() == REFERENCE.as_slice()
        && RefNode::decode(alloc, &out) == Ok(Some(node))
}

fn is_commit_start(alloc: Global) -> bool {
    let node = CommitStart { cmt_no: 5 };
    let mut out = [0xff; 32];
    node.encode(12, 0, &mut out);
    node.len() == 32
        && out.as_slice() == COMMIT_START.as_slice()
        && CommitStart::decode(alloc, &out) == Ok(Some(node))
}

fn is_padding(alloc: Global) -> bool {
    let node = PadNode { pad_len: 100 };
    let mut out = [0xff; 28];
    node.encode(0, 0, &mut out);
    node.len() == 28
        && out.as_slice() == PADDING.as_slice()
        && PadNode::decode(alloc, &out) == Ok(Some(node))
}

fn is_index(alloc: Global) -> Result<bool, Memory> {
    let first = Branch {
        lnum: 20,
        offs: 0,
        len: 160,
        key: Key::Ino { ino: 65 },
    };
    let second = Branch {
        lnum: 20,
        offs: 160,
        len: 51,
        key: Key::Block { ino: 65, block: 3 },
    };
    let node = IdxNode {
        level: 0,
        branches: vec![in alloc; first, second]?,
    };
    let mut out = [0xff; 68];
    node.encode(13, 0, &mut out);
    if node.len() != 68 || out.as_slice() != INDEX.as_slice() {
        return Ok(false);
    }
    match IdxNode::decode(alloc, &out)? {
        Some(read) => Ok(read.level == 0 && read.branches.as_slice() == [first, second].as_slice()),
        None => Ok(false),
    }
}

fn are_orphans(alloc: Global) -> Result<bool, Memory> {
    let node = OrphNode {
        cmt_no: 6,
        last: true,
        inos: vec![in alloc; 65, 66]?,
    };
    let mut out = [0xff; 48];
    node.encode(14, 0, &mut out);
    if node.len() != 48 || out.as_slice() != ORPHANS.as_slice() {
        return Ok(false);
    }
    match OrphNode::decode(alloc, &out)? {
        Some(read) => Ok(
            read.cmt_no == 6 && read.last && read.inos.as_slice() == [65, 66].as_slice(),
        ),
        None => Ok(false),
    }
}

// The number of four bytes at a place of a node.
fn number_at(node: &[u8], place: usize) -> u32 {
    if place > 4092 || node.len() < place + 4 {
        return 0;
    }
    u32_at(node, place)
}

// Whether each number stands at its place.
fn are_numbers(node: &[u8], rows: &[(usize, u32)]) -> bool {
    for row in rows {
        if number_at(node, row.0) != row.1 {
            return false;
        }
    }
    true
}

// Each field of a master says at which byte it stands.
const MASTER: Master = Master {
    highest_inum: 24,
    cmt_no: 32,
    flags: 40,
    log_lnum: 44,
    root_lnum: 48,
    root_offs: 52,
    root_len: 56,
    gc_lnum: 60,
    ihead_lnum: 64,
    ihead_offs: 68,
    index_size: 72,
    total_free: 80,
    total_dirty: 88,
    total_used: 96,
    total_dead: 104,
    total_dark: 112,
    lpt_lnum: 120,
    lpt_offs: 124,
    nhead_lnum: 128,
    nhead_offs: 132,
    ltab_lnum: 136,
    ltab_offs: 140,
    lsave_lnum: 144,
    lsave_offs: 148,
    lscan_lnum: 152,
    empty_lebs: 156,
    idx_lebs: 160,
    leb_cnt: 164,
};

const MASTER_NUMBERS: &[(usize, u32)] = &[
    (24, 24),
    (32, 32),
    (40, 40),
    (44, 44),
    (48, 48),
    (52, 52),
    (56, 56),
    (60, 60),
    (64, 64),
    (68, 68),
    (72, 72),
    (80, 80),
    (88, 88),
    (96, 96),
    (104, 104),
    (112, 112),
    (120, 120),
    (124, 124),
    (128, 128),
    (132, 132),
    (136, 136),
    (140, 140),
    (144, 144),
    (148, 148),
    (152, 152),
    (156, 156),
    (160, 160),
    (164, 164),
    (168, 0),
    (508, 0),
];

fn is_master(alloc: Global) -> bool {
    let mut out = [0xff; 512];
    MASTER.encode(15, 0, &mut out);
    MASTER.len() == 512
        && are_numbers(&out, MASTER_NUMBERS)
        && Master::decode(alloc, &out) == Ok(Some(MASTER))
}

// A plain volume of 1 MiB.
const VOLUME: Super = Super {
    key_hash: 0,
    key_fmt: 0,
    flags: 0x04,
    min_io_size: 512,
    leb_size: 15_872,
    leb_cnt: 66,
    max_leb_cnt: 67,
    max_bud_bytes: 126_976,
    log_lebs: 4,
    lpt_lebs: 2,
    orph_lebs: 1,
    jhead_cnt: 1,
    fanout: 8,
    lsave_cnt: 256,
    fmt_version: 4,
    default_compr: 0x0102,
    rp_uid: 1_000,
    rp_gid: 100,
    rp_size: 4_096,
    time_gran: 1_000_000_000,
    uuid: *b"0123456789abcdef",
    ro_compat_version: 0,
};

const VOLUME_NUMBERS: &[(usize, u32)] = &[
    (24, 0),
    (28, 0x04),
    (32, 512),
    (36, 15_872),
    (40, 66),
    (44, 67),
    (48, 126_976),
    (56, 4),
    (60, 2),
    (64, 1),
    (68, 1),
    (72, 8),
    (76, 256),
    (80, 4),
    (84, 0x0102),
    (88, 1_000),
    (92, 100),
    (96, 4_096),
    (104, 1_000_000_000),
    (108, 0x3332_3130),
    (120, 0x6665_6463),
    (124, 0),
    (128, 0),
    (4092, 0),
];

fn is_super(alloc: Global) -> bool {
    let mut out = [0xff; 4096];
    VOLUME.encode(1, 0, &mut out);
    if VOLUME.len() != 4096 || !are_numbers(&out, VOLUME_NUMBERS) {
        return false;
    }
    match Super::decode(alloc, &out) {
        Ok(Some(read)) => read == VOLUME && read.raw().min_io == 512 && read.feature().is_none(),
        _ => false,
    }
}

// A volume of the big model is no plain one.
fn tells_the_big_model() -> bool {
    let big = Super {
        flags: 0x06,
        ..VOLUME
    };
    big.feature() == Some(Feature::BigModel)
}

// Bodies without their headers.
fn are_bodies() -> bool {
    let body = REFERENCE.as_slice().split_at(24).1;
    let padding = PADDING.as_slice().split_at(24).1;
    is_system(8, body)
        && !is_system(9, body)
        && PadNode::from_body(5, padding) == Some(PadNode { pad_len: 100 })
}

#[test]
fn nodes_are_spelled_and_read(rt: HostRuntime) {
    let nodes = [
        ("reference", is_reference(rt.alloc())),
        ("commit start", is_commit_start(rt.alloc())),
        ("padding", is_padding(rt.alloc())),
        ("index", is_index(rt.alloc()) == Ok(true)),
        ("orphans", are_orphans(rt.alloc()) == Ok(true)),
        ("master", is_master(rt.alloc())),
        ("superblock", is_super(rt.alloc())),
        ("big model", tells_the_big_model()),
        ("bodies", are_bodies()),
    ];
    for (node, is_right) in nodes {
        assert!(rt; is_right, "{node}");
    }
}
