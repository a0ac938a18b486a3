// Texts worked out by hand from the layout of ubifs-media.h, their checksums by zlib's crc32, and read back.

ghost use Rattle.std.specs.Prelude.{◌≡◌, ◌+◌, ◌^◌, ◌<◌, IsTrue, length};
ghost use Rattle.std.specs.List.{list_all};
ghost use Rattle.fs_model.specs.Backing.{is_node};
ghost use Rattle.media_leaf.specs.Inode.{IsInoNode};

use fs_model::{Change, Entry, Inode, Kind};
use group_nodes::{group_len, read_change, write_group};
use media_leaf::{DentNode, InoNode};
use std::alloc::Global;
use ubifs_base::{Bytes, Memory, Name};

// Inode 65, a symbolic link to `target`: sequence number 8, alone.
const INODE: &[u8; 168] =
    b"\x31\x18\x10\x06\xa8\x59\x52\xdf\x08\x00\x00\x00\x00\x00\x00\x00\xa6\x00\x00\x00\
    \x00\x00\x00\x00\x41\x00\x00\x00\x00\x00\x00\x00\x00\x00\x00\x00\x00\x00\x00\x00\
    \x00\x00\x00\x00\x00\x00\x00\x00\x06\x00\x00\x00\x00\x00\x00\x00\x01\x00\x00\x00\
    \x00\x00\x00\x00\x02\x00\x00\x00\x00\x00\x00\x00\x03\x00\x00\x00\x00\x00\x00\x00\
    \x00\x00\x00\x00\x00\x00\x00\x00\x00\x00\x00\x00\x01\x00\x00\x00\xe8\x03\x00\x00\
    \x64\x00\x00\x00\xff\xa1\x00\x00\x00\x00\x00\x00\x06\x00\x00\x00\x00\x00\x00\x00\
    \x00\x00\x00\x00\x00\x00\x00\x00\x00\x00\x00\x00\x00\x00\x00\x00\x00\x00\x00\x00\
    \x00\x00\x00\x00\x00\x00\x00\x00\x00\x00\x00\x00\x00\x00\x00\x00\x00\x00\x00\x00\
    \x74\x61\x72\x67\x65\x74\xce\xce";

// The symbolic link `f` in directory 1: sequence number 8, alone.
const ENTRY: &[u8; 64] =
    b"\x31\x18\x10\x06\x7a\x5a\x78\x1b\x08\x00\x00\x00\x00\x00\x00\x00\x3a\x00\x00\x00\
    \x02\x00\x00\x00\x01\x00\x00\x00\x62\x46\x00\x40\x00\x00\x00\x00\x00\x00\x00\x00\
    \x41\x00\x00\x00\x00\x00\x00\x00\x00\x02\x01\x00\x00\x00\x00\x00\x66\x00\xce\xce\
    \xce\xce\xce\xce";

// The name `f` goes from directory 1: sequence number 8, alone.
const DROPPED: &[u8; 64] =
    b"\x31\x18\x10\x06\x7d\xb4\x51\x60\x08\x00\x00\x00\x00\x00\x00\x00\x3a\x00\x00\x00\
    \x02\x00\x00\x00\x01\x00\x00\x00\x62\x46\x00\x40\x00\x00\x00\x00\x00\x00\x00\x00\
    \x00\x00\x00\x00\x00\x00\x00\x00\x00\x00\x01\x00\x00\x00\x00\x00\x66\x00\xce\xce\
    \xce\xce\xce\xce";

// Block 3 of inode 65, `abc`: sequence number 8, alone.
const BLOCK: &[u8; 56] =
    b"\x31\x18\x10\x06\x73\xd4\xf1\xf4\x08\x00\x00\x00\x00\x00\x00\x00\x33\x00\x00\x00\
    \x01\x00\x00\x00\x41\x00\x00\x00\x03\x00\x00\x20\x00\x00\x00\x00\x00\x00\x00\x00\
    \x03\x00\x00\x00\x00\x00\x00\x00\x61\x62\x63\xce\xce\xce\xce\xce";

// Inode 65 is cut from 10000 bytes to 4097: sequence number 8, alone.
const TRUNCATION: &[u8; 56] =
    b"\x31\x18\x10\x06\xa4\xda\xda\x65\x08\x00\x00\x00\x00\x00\x00\x00\x38\x00\x00\x00\
    \x04\x00\x00\x00\x41\x00\x00\x00\x00\x00\x00\x00\x00\x00\x00\x00\x00\x00\x00\x00\
    \x10\x27\x00\x00\x00\x00\x00\x00\x01\x10\x00\x00\x00\x00\x00\x00";

// Inode 65 goes: sequence number 8, alone.
const GONE: &[u8; 160] =
    b"\x31\x18\x10\x06\xfe\xd9\x6a\x67\x08\x00\x00\x00\x00\x00\x00\x00\xa0\x00\x00\x00\
    \x00\x00\x00\x00\x41\x00\x00\x00\x00\x00\x00\x00\x00\x00\x00\x00\x00\x00\x00\x00\
    \x00\x00\x00\x00\x00\x00\x00\x00\x00\x00\x00\x00\x00\x00\x00\x00\x00\x00\x00\x00\
    \x00\x00\x00\x00\x00\x00\x00\x00\x00\x00\x00\x00\x00\x00\x00\x00\x00\x00\x00\x00\
    \x00\x00\x00\x00\x00\x00\x00\x00\x00\x00\x00\x00\x00\x00\x00\x00\x00\x00\x00\x00\
    \x00\x00\x00\x00\x00\x80\x00\x00\x00\x00\x00\x00\x00\x00\x00\x00\x00\x00\x00\x00\
    \x00\x00\x00\x00\x00\x00\x00\x00\x00\x00\x00\x00\x00\x00\x00\x00\x00\x00\x00\x00\
    \x00\x00\x00\x00\x00\x00\x00\x00\x00\x00\x00\x00\x00\x00\x00\x00\x00\x00\x00\x00";

// The name, the cut and the block as a group: sequence numbers 8 to 10.
const GROUP: &[u8; 176] =
    b"\x31\x18\x10\x06\x62\xa3\xa1\xe0\x08\x00\x00\x00\x00\x00\x00\x00\x3a\x00\x00\x00\
    \x02\x01\x00\x00\x01\x00\x00\x00\x62\x46\x00\x40\x00\x00\x00\x00\x00\x00\x00\x00\
    \x00\x00\x00\x00\x00\x00\x00\x00\x00\x00\x01\x00\x00\x00\x00\x00\x66\x00\xce\xce\
    \xce\xce\xce\xce\x31\x18\x10\x06\xb0\x21\xf5\x97\x09\x00\x00\x00\x00\x00\x00\x00\
    \x38\x00\x00\x00\x04\x01\x00\x00\x41\x00\x00\x00\x00\x00\x00\x00\x00\x00\x00\x00\
    \x00\x00\x00\x00\x10\x27\x00\x00\x00\x00\x00\x00\x01\x10\x00\x00\x00\x00\x00\x00\
    \x31\x18\x10\x06\x95\xff\x17\x02\x0a\x00\x00\x00\x00\x00\x00\x00\x33\x00\x00\x00\
    \x01\x02\x00\x00\x41\x00\x00\x00\x03\x00\x00\x20\x00\x00\x00\x00\x00\x00\x00\x00\
    \x03\x00\x00\x00\x00\x00\x00\x00\x61\x62\x63\xce\xce\xce\xce\xce";

// Whether these bytes are the group's, with the sequence numbers from 8 on.
fn is_spelled(alloc: Global, changes: &[Change], wanted: &[u8]) -> Result<bool, Memory>
    requires nodes { IsTrue (list_all is_node changes.now) }
    requires few { length changes.now < 2 ^ 32 }
{
    let mut sqnum = 7;
    let mut bytes = Vec::new(alloc);
    bytes.resize(group_len(changes) as usize, 0)?;
    write_group(alloc, changes, &mut sqnum, bytes.as_mut_slice());
    Ok(bytes.as_slice() == wanted)
}

fn an_inode_is_set(alloc: Global) -> Result<bool, Memory> {
    let inode = Inode {
        kind: Kind::Symlink,
        mode: 0o777,
        uid: 1000,
        gid: 100,
        flags: 0,
        nlink: 1,
        size: 6,
        atime: 1,
        ctime: 2,
        mtime: 3,
        extra: Bytes::from_slice(alloc, b"target")?,
    };
    is_spelled(alloc, &[Change::SetInode { ino: 65, inode }], INODE)
}

fn an_entry_is_set(alloc: Global) -> Result<bool, Memory> {
    let entry = Entry {
        dir: 1,
        name: Name::from_slice(alloc, b"f")?,
        ino: 65,
        kind: Kind::Symlink,
    };
    is_spelled(alloc, &[Change::SetEntry { entry }], ENTRY)
}

fn an_entry_goes(alloc: Global) -> Result<bool, Memory> {
    let name = Name::from_slice(alloc, b"f")?;
    is_spelled(alloc, &[Change::DropEntry { dir: 1, name }], DROPPED)
}

fn a_block_is_set(alloc: Global) -> Result<bool, Memory> {
    let bytes = Bytes::from_slice(alloc, b"abc")?;
    let change = Change::SetBlock {
        ino: 65,
        block: 3,
        bytes,
    };
    is_spelled(alloc, &[change], BLOCK)
}

fn a_file_is_cut(alloc: Global) -> Result<bool, Memory> {
    let cut = Change::CutBlocks {
        ino: 65,
        old_size: 10_000,
        new_size: 4_097,
    };
    is_spelled(alloc, &[cut], TRUNCATION)
}

fn an_inode_goes(alloc: Global) -> Result<bool, Memory> {
    is_spelled(alloc, &[Change::DropInode { ino: 65 }], GONE)
}

// Group types 1, 1 and 2.
fn three_changes_are_a_group(alloc: Global) -> Result<bool, Memory> {
    let name = Name::from_slice(alloc, b"f")?;
    let bytes = Bytes::from_slice(alloc, b"abc")?;
    let changes = [
        Change::DropEntry { dir: 1, name },
        Change::CutBlocks {
            ino: 65,
            old_size: 10_000,
            new_size: 4_097,
        },
        Change::SetBlock {
            ino: 65,
            block: 3,
            bytes,
        },
    ];
    let is_long = group_len(&changes) == 176;
    Ok(is_spelled(alloc, &changes, GROUP)? && is_long)
}

#[test]
fn changes_are_spelled(rt: HostRuntime) {
    let alloc = rt.alloc();
    let groups = [
        ("an inode is set", an_inode_is_set(alloc)),
        ("an entry is set", an_entry_is_set(alloc)),
        ("an entry goes", an_entry_goes(alloc)),
        ("a block is set", a_block_is_set(alloc)),
        ("a file is cut", a_file_is_cut(alloc)),
        ("an inode goes", an_inode_goes(alloc)),
        ("three changes", three_changes_are_a_group(alloc)),
    ];
    for (group, is_right) in groups {
        assert_eq!(rt; is_right, Ok(true), "{group}");
    }
}

// Which change it is, and two of its numbers; zeros for none.
type Told = (u8, u32, u64);

fn told(read: Option<Change>) -> Told {
    match read {
        None => (0, 0, 0),
        Some(Change::SetInode { ino, inode }) => (1, ino, inode.size),
        Some(Change::SetEntry { entry }) => (2, entry.dir, entry.ino as u64),
        Some(Change::DropEntry { dir, name }) => (3, dir, name.len() as u64),
        Some(Change::SetBlock { ino, block, .. }) => (4, ino, block as u64),
        Some(Change::CutBlocks { ino, new_size, .. }) => (5, ino, new_size),
        Some(Change::DropInode { ino }) => (6, ino, 0),
    }
}

// A text, how many of its bytes are read, and what they say.
const NODES: &[(&[u8], usize, Told)] = &[
    (INODE, 166, (1, 65, 6)),
    (ENTRY, 58, (2, 1, 65)),
    (DROPPED, 58, (3, 1, 1)),
    (BLOCK, 51, (4, 65, 3)),
    (TRUNCATION, 56, (5, 65, 4_097)),
    (GONE, 160, (6, 65, 0)),
    (GROUP, 58, (3, 1, 1)),
    (INODE, 168, (0, 0, 0)),
    (BLOCK, 50, (0, 0, 0)),
    (GONE, 20, (0, 0, 0)),
    (b"", 0, (0, 0, 0)),
];

fn told_by(alloc: Global, text: &[u8], len: usize) -> Result<Told, Memory> {
    match text.split_at_checked(len) {
        Some((node, _)) => Ok(told(read_change(alloc, node)?)),
        None => Ok((7, 0, 0)),
    }
}

fn told_by_an_attribute(alloc: Global) -> Result<Told, Memory> {
    let node = DentNode {
        dir: 65,
        inum: 66,
        kind: 0,
        name: Name::from_slice(alloc, b"user.a")?,
        attribute: true,
    };
    let mut out = [0xff; 63];
    node.encode(9, 0, &mut out);
    Ok(told(read_change(alloc, &out)?))
}

// An inode of this mode and so many links, with a size of 5.
fn inode_of(alloc: Global, mode: u32, nlink: u32) -> InoNode
    ensures { IsInoNode result × (length result.bytes ≡ 0) }
{
    InoNode {
        ino: 65,
        size: 5,
        atime: 1,
        ctime: 2,
        mtime: 3,
        nlink,
        uid: 0,
        gid: 0,
        mode,
        flags: 0,
        xattr_cnt: 0,
        xattr_size: 0,
        xattr_names: 0,
        bytes: Bytes::from_vec(Vec::new(alloc)),
    }
}

// A mode, so many links, and what such an inode says.
const MODES: &[(u32, u32, Told)] = &[
    (0o100644, 1, (1, 65, 5)),
    (0o140777, 1, (1, 65, 5)),
    (0o000644, 1, (0, 0, 0)),
    (0o030644, 1, (0, 0, 0)),
    (0o100644, 0, (6, 65, 0)),
    (0o000644, 0, (6, 65, 0)),
];

fn told_by_mode(alloc: Global, mode: u32, nlink: u32) -> Result<Told, Memory> {
    let mut out = [0xff; 160];
    inode_of(alloc, mode, nlink).encode(9, 1, &mut out);
    Ok(told(read_change(alloc, &out)?))
}

#[test]
fn changes_are_read(rt: HostRuntime) {
    for (text, len, wanted) in NODES {
        assert_eq!(rt; told_by(rt.alloc(), text, *len), Ok(*wanted));
    }
    for (mode, nlink, wanted) in MODES {
        assert_eq!(rt; told_by_mode(rt.alloc(), *mode, *nlink), Ok(*wanted));
    }
    // An attribute is no change.
    assert_eq!(rt; told_by_an_attribute(rt.alloc()), Ok((0, 0, 0)));
}
