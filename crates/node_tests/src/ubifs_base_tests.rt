// Outside vectors.

use std::alloc::{AllocError, Global};
use ubifs_base::{
    Bytes, FrameFault, GeomFault, GeomField, Geometry, Head, Key, MAGIC, Memory, Name, RawGeometry,
    crc16, crc32, fill_gap, frame, key_bytes, r5, read_key, unframe,
};

// By Python's zlib, inverted.
const CHECKSUMS: &[(&[u8], u32)] = &[
    (b"123456789", 0x340b_c6d9),
    (b"123456789123456789123456789123456789", 0xc1d6_e963),
    (b"", 0xffff_ffff),
];

const NAME_HASHES: &[(&[u8], u32)] = &[
    (b"f", 18018),
    (b"am", 207_768),
    (b"bb", 207_768),
    (b"\xc3\xa9", 536_736_954),
    (b"", 3),
];

#[test]
fn checksums_and_name_hashes(rt: HostRuntime) {
    for (bytes, wanted) in CHECKSUMS {
        assert_eq!(rt; crc32(bytes), *wanted);
    }
    for (name, wanted) in NAME_HASHES {
        assert_eq!(rt; r5(name), *wanted);
    }
    // CRC-16/MODBUS
    assert_eq!(rt; crc16(b"123456789"), 0x4b37);
}

const ROOT_FILE: [u8; 8] = [0x41, 0, 0, 0, 0, 0, 0, 0];

const BLOCK: [u8; 8] = [0x41, 0, 0, 0, 3, 0, 0, 0x20];

const ENTRY: [u8; 8] = [1, 0, 0, 0, 0x62, 0x46, 0, 0x40];

fn keys_are_spelled() -> bool {
    let entry = Key::Dent {
        dir: 1,
        hash: 18018,
    };
    key_bytes(&Key::Ino { ino: 65 }) == ROOT_FILE
        && key_bytes(&Key::Block { ino: 65, block: 3 }) == BLOCK
        && key_bytes(&entry) == ENTRY
}

fn keys_are_read() -> bool {
    read_key(&BLOCK) == Some(Key::Block { ino: 65, block: 3 })
        && read_key(&[0x41, 0, 0, 0, 1, 0, 0, 0]).is_none()
        && read_key(&[0x41, 0, 0, 0, 0, 0, 0, 0x80]).is_none()
}

fn gaps_are_filled() -> bool {
    let mut small = [0; 4];
    fill_gap(&mut small);
    let mut padding = [0xff; 30];
    fill_gap(&mut padding);
    let wanted = [
        0x31, 0x18, 0x10, 6, 0xe0, 2, 0xd1, 0x1b, 0, 0, 0, 0, 0, 0, 0, 0, 28, 0, 0, 0, 5, 0, 0, 0,
        2, 0, 0, 0, 0, 0,
    ];
    small == [0xce, 0xce, 0xce, 0xce] && padding == wanted
}

fn headers_are_read() -> bool {
    let head = Head {
        sqnum: 7,
        len: 25,
        kind: 3,
        group: 1,
    };
    let mut node = [9; 25];
    frame(&mut node, &head);
    let whole = unframe(&node);
    let short = unframe(node.split_at(23).0);
    let cut = unframe(node.split_at(24).0);
    node[0] = 0x32;
    whole == Ok(head)
        && short == Err(FrameFault::Short { have: 23 })
        && cut == Err(FrameFault::Len { found: 25 })
        && unframe(&node) == Err(FrameFault::Magic { found: MAGIC + 1 })
}

fn sizes_are_derived() -> bool {
    let Ok(geo) = Geometry::new(&RawGeometry::plain(16_384, 512, 64, 8)) else {
        return false;
    };
    (geo.main_first(), geo.main_lebs()) == (10, 64)
        && (
            geo.index_node_len(),
            geo.index_nodes_per_leb(),
            geo.leb_reserve(),
        ) == (192, 85, 6304)
        && (geo.pnode_len(), geo.nnode_len(), geo.ltab_len()) == (15, 11, 10)
        && (geo.pnode_count(), geo.tree_height()) == (16, 2)
}

fn name_is_a_list(alloc: Global) -> Result<Bytes, Memory> {
    let name = Name::from_slice(alloc, b"file")?;
    if (name.len(), name.is_empty()) != (4, false) || name.as_slice() != b"file".as_slice() {
        return Err(Memory);
    }
    Ok(Bytes::from_vec(name.into_vec()))
}

fn bytes_are_a_list(alloc: Global) -> Result<bool, Memory> {
    let bytes = name_is_a_list(alloc)?;
    let copy = Bytes::from_slice(alloc, bytes.as_slice())?;
    let is_list = (bytes.len(), bytes.is_empty()) == (4, false)
        && bytes.as_slice() == b"file".as_slice();
    let is_cloned = bytes.clone()? == bytes;
    let is_copied = copy.into_vec().as_slice() == Name::from_vec(bytes.into_vec()).as_slice();
    Ok(is_list && is_cloned && is_copied && Memory::from(AllocError) == Memory)
}

#[test]
fn keys_headers_sizes_and_lists(rt: HostRuntime) {
    let rows = [
        ("keys spelled", keys_are_spelled()),
        ("keys read", keys_are_read()),
        ("gaps", gaps_are_filled()),
        ("headers", headers_are_read()),
        ("sizes", sizes_are_derived()),
        ("lists", bytes_are_a_list(rt.alloc()) == Ok(true)),
    ];
    for (row, is_right) in rows {
        assert!(rt; is_right, "{row}");
    }
}

#[test]
fn refused_geometries(rt: HostRuntime) {
    for (leb_size, min_io, main, fanout, field, value) in [
        (16_384, 513, 64, 8, GeomField::MinIo, 513),
        (16_384, 4, 64, 8, GeomField::MinIo, 4),
        (16_000, 512, 64, 8, GeomField::LebSize, 16_000),
        (32_768, 16_384, 64, 8, GeomField::LebSize, 32_768),
        (16_384, 512, 0, 8, GeomField::LebCnt, 10),
        (16_384, 512, 3505, 8, GeomField::MaxLebCnt, 3515),
        (16_384, 512, 3504, 2, GeomField::Fanout, 2),
    ] {
        let raw = RawGeometry::plain(leb_size, min_io, main, fanout);
        assert_eq!(rt; Geometry::new(&raw), Err(GeomFault { field, value }));
    }
}
