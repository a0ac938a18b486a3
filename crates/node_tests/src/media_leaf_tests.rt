// Nodes worked out by hand from the layout of ubifs-media.h, their checksums by zlib's crc32.

use media_leaf::*;
use std::alloc::Global;
use ubifs_base::{Bytes, Memory, Name};

// Inode 65, a symbolic link to `target`: sequence number 7, in a group.
const INODE: &[u8; 166] =
    b"\x31\x18\x10\x06\xbb\x1c\x7e\x5b\x07\x00\x00\x00\x00\x00\x00\x00\xa6\x00\x00\x00\
    \x00\x01\x00\x00\x41\x00\x00\x00\x00\x00\x00\x00\x00\x00\x00\x00\x00\x00\x00\x00\
    \x00\x00\x00\x00\x00\x00\x00\x00\x06\x00\x00\x00\x00\x00\x00\x00\x01\x00\x00\x00\
    \x00\x00\x00\x00\x02\x00\x00\x00\x00\x00\x00\x00\x03\x00\x00\x00\x00\x00\x00\x00\
    \x00\x00\x00\x00\x00\x00\x00\x00\x00\x00\x00\x00\x01\x00\x00\x00\xe8\x03\x00\x00\
    \x64\x00\x00\x00\xff\xa1\x00\x00\x00\x00\x00\x00\x06\x00\x00\x00\x00\x00\x00\x00\
    \x00\x00\x00\x00\x00\x00\x00\x00\x00\x00\x00\x00\x00\x00\x00\x00\x00\x00\x00\x00\
    \x00\x00\x00\x00\x00\x00\x00\x00\x00\x00\x00\x00\x00\x00\x00\x00\x00\x00\x00\x00\
    \x74\x61\x72\x67\x65\x74";

// Block 3 of inode 65, `abc`: sequence number 8.
const BLOCK: &[u8; 51] =
    b"\x31\x18\x10\x06\x73\xd4\xf1\xf4\x08\x00\x00\x00\x00\x00\x00\x00\x33\x00\x00\x00\
    \x01\x00\x00\x00\x41\x00\x00\x00\x03\x00\x00\x20\x00\x00\x00\x00\x00\x00\x00\x00\
    \x03\x00\x00\x00\x00\x00\x00\x00\x61\x62\x63";

// The symbolic link `f` in directory 1: sequence number 9, last of a group.
const ENTRY: &[u8; 58] =
    b"\x31\x18\x10\x06\xf4\x6b\xd8\x45\x09\x00\x00\x00\x00\x00\x00\x00\x3a\x00\x00\x00\
    \x02\x02\x00\x00\x01\x00\x00\x00\x62\x46\x00\x40\x00\x00\x00\x00\x00\x00\x00\x00\
    \x41\x00\x00\x00\x00\x00\x00\x00\x00\x02\x01\x00\x00\x00\x00\x00\x66\x00";

// Inode 65 is cut from 10000 bytes to 4097: sequence number 10.
const TRUNCATION: &[u8; 56] =
    b"\x31\x18\x10\x06\x1c\x03\xb9\x1e\x0a\x00\x00\x00\x00\x00\x00\x00\x38\x00\x00\x00\
    \x04\x00\x00\x00\x41\x00\x00\x00\x00\x00\x00\x00\x00\x00\x00\x00\x00\x00\x00\x00\
    \x10\x27\x00\x00\x00\x00\x00\x00\x01\x10\x00\x00\x00\x00\x00\x00";

fn is_inode(alloc: Global) -> Result<bool, Memory> {
    let node = InoNode {
        ino: 65,
        size: 6,
        atime: 1,
        ctime: 2,
        mtime: 3,
        nlink: 1,
        uid: 1000,
        gid: 100,
        mode: 0o120777,
        flags: 0,
        xattr_cnt: 0,
        xattr_size: 0,
        xattr_names: 0,
        bytes: Bytes::from_slice(alloc, b"target")?,
    };
    let mut out = [0xff; 166];
    node.encode(7, 1, &mut out);
    if node.len() != 166 || out.as_slice() != INODE.as_slice() {
        return Ok(false);
    }
    match InoNode::decode(alloc, &out)? {
        Some(read) => Ok(read.mode == 0o120777 && read.bytes.as_slice() == b"target".as_slice()),
        None => Ok(false),
    }
}

fn is_block(alloc: Global) -> Result<bool, Memory> {
    let node = DataNode {
        ino: 65,
        block: 3,
        bytes: Bytes::from_slice(alloc, b"abc")?,
    };
    let mut out = [0xff; 51];
    node.encode(8, 0, &mut out);
    if node.len() != 51 || out.as_slice() != BLOCK.as_slice() {
        return Ok(false);
    }
    match DataNode::decode(alloc, &out)? {
        Some(read) => Ok(read.block == 3 && read.bytes.as_slice() == b"abc".as_slice()),
        None => Ok(false),
    }
}

fn is_entry(alloc: Global) -> Result<bool, Memory> {
    let node = DentNode {
        dir: 1,
        inum: 65,
        kind: 2,
        name: Name::from_slice(alloc, b"f")?,
        attribute: false,
    };
    let mut out = [0xff; 58];
    node.encode(9, 2, &mut out);
    if node.len() != 58 || out.as_slice() != ENTRY.as_slice() {
        return Ok(false);
    }
    match DentNode::decode(alloc, &out)? {
        Some(read) => Ok(
            read.inum == 65 && read.name.as_slice() == b"f".as_slice() && !read.attribute,
        ),
        None => Ok(false),
    }
}

fn is_truncation(alloc: Global) -> Result<bool, Memory> {
    let node = TrunNode {
        ino: 65,
        old_size: 10_000,
        new_size: 4_097,
    };
    let mut out = [0xff; 56];
    node.encode(10, 0, &mut out);
    Ok(
        node.len() == 56
            && out.as_slice() == TRUNCATION.as_slice()
            && TrunNode::decode(alloc, &out)? == Some(node),
    )
}

#[test]
fn nodes_are_spelled_and_read(rt: HostRuntime) {
    let nodes = [
        ("inode", is_inode(rt.alloc())),
        ("block", is_block(rt.alloc())),
        ("entry", is_entry(rt.alloc())),
        ("truncation", is_truncation(rt.alloc())),
    ];
    for (node, is_right) in nodes {
        assert_eq!(rt; is_right, Ok(true), "{node}");
    }
}

// A type, a node of which the body is taken, and whether that is a body of this type.
const BODIES: &[(u8, &[u8], bool)] = &[
    (0, INODE, true),
    (1, BLOCK, true),
    (2, ENTRY, true),
    (4, TRUNCATION, true),
    (3, ENTRY, false),
    (5, TRUNCATION, false),
];

fn is_leaf_behind_its_header(kind: u8, node: &[u8]) -> Option<bool> {
    let (_, body) = node.split_at_checked(24)?;
    Some(is_leaf(kind, body))
}

#[test]
fn leaves(rt: HostRuntime) {
    for (kind, node, wanted) in BODIES {
        assert_eq!(rt;
            is_leaf_behind_its_header(*kind, node),
            Some(*wanted),
            "{kind}"
        );
    }
}
