// The nodes of the six kinds of change. Each is written with the data or the name of the change in place of its own.

ghost use Rattle.std.specs.Prelude.{◌≡◌, ◌+◌, ◌<◌, ◌≤◌, length, []};
ghost use Rattle.media_leaf.specs.LeafNode.{IsLeaf, written};
ghost use Rattle.fs_model.specs.declared.change.Change.TheVariants.{SetInode, SetEntry, DropEntry, SetBlock, CutBlocks, DropInode};
ghost use Rattle.group_nodes.specs.Nodes.{node_of};

use crate::kind::{entry_type, type_bits};
use fs_model::{Entry, Inode, Kind};
use media_leaf::{DataNode, DentNode, InoNode, TrunNode};
use std::alloc::Global;
use ubifs_base::{Bytes, Name};

// An inode that is set.
pub(crate) fn write_inode(
    alloc: Global,
    ino: u32,
    inode: &Inode,
    sqnum: u64,
    group: u8,
    out: &mut [u8],
)
    requires node { IsLeaf (node_of (SetInode ino inode.now)) }
    requires mode { inode.now.mode < 4096 }
    requires group { group ≤ 2 }
    requires room { length out.old ≡ 160 + length inode.now.extra }
    ensures { out.new ≡ written sqnum group (node_of (SetInode ino inode.now)) }
{
    let node = InoNode {
        ino,
        size: inode.size,
        atime: inode.atime,
        ctime: inode.ctime,
        mtime: inode.mtime,
        nlink: inode.nlink,
        uid: inode.uid,
        gid: inode.gid,
        mode: type_bits(inode.kind) + inode.mode,
        flags: inode.flags,
        xattr_cnt: 0,
        xattr_size: 0,
        xattr_names: 0,
        bytes: no_bytes(alloc),
    };
    node.encode_with(inode.extra.as_slice(), sqnum, group, out);
}

// An inode that goes.
pub(crate) fn write_gone(alloc: Global, ino: u32, sqnum: u64, group: u8, out: &mut [u8])
    requires node { IsLeaf (node_of (DropInode ino)) }
    requires group { group ≤ 2 }
    requires room { length out.old ≡ 160 }
    ensures { out.new ≡ written sqnum group (node_of (DropInode ino)) }
{
    let node = InoNode {
        ino,
        size: 0,
        atime: 0,
        ctime: 0,
        mtime: 0,
        nlink: 0,
        uid: 0,
        gid: 0,
        mode: type_bits(Kind::File),
        flags: 0,
        xattr_cnt: 0,
        xattr_size: 0,
        xattr_names: 0,
        bytes: no_bytes(alloc),
    };
    node.encode(sqnum, group, out);
}

// An entry that is set.
pub(crate) fn write_entry(alloc: Global, entry: &Entry, sqnum: u64, group: u8, out: &mut [u8])
    requires node { IsLeaf (node_of (SetEntry entry.now)) }
    requires group { group ≤ 2 }
    requires room { length out.old ≡ 57 + length entry.now.name }
    ensures { out.new ≡ written sqnum group (node_of (SetEntry entry.now)) }
{
    let node = DentNode {
        dir: entry.dir,
        inum: entry.ino,
        kind: entry_type(entry.kind),
        name: no_name(alloc),
        attribute: false,
    };
    node.encode_with(entry.name.as_slice(), sqnum, group, out);
}

// An entry that goes.
pub(crate) fn write_dropped(
    alloc: Global,
    dir: u32,
    name: &Name,
    sqnum: u64,
    group: u8,
    out: &mut [u8],
)
    requires node { IsLeaf (node_of (DropEntry dir name.now)) }
    requires group { group ≤ 2 }
    requires room { length out.old ≡ 57 + length name.now }
    ensures { out.new ≡ written sqnum group (node_of (DropEntry dir name.now)) }
{
    let node = DentNode {
        dir,
        inum: 0,
        kind: 0,
        name: no_name(alloc),
        attribute: false,
    };
    node.encode_with(name.as_slice(), sqnum, group, out);
}

// A block that is set.
pub(crate) fn write_block(
    alloc: Global,
    ino: u32,
    block: u32,
    bytes: &Bytes,
    sqnum: u64,
    group: u8,
    out: &mut [u8],
)
    requires node { IsLeaf (node_of (SetBlock ino block bytes.now)) }
    requires group { group ≤ 2 }
    requires room { length out.old ≡ 48 + length bytes.now }
    ensures { out.new ≡ written sqnum group (node_of (SetBlock ino block bytes.now)) }
{
    let node = DataNode {
        ino,
        block,
        bytes: no_bytes(alloc),
    };
    node.encode_with(bytes.as_slice(), sqnum, group, out);
}

// The end of a file that is cut off.
pub(crate) fn write_truncation(
    ino: u32,
    old_size: u64,
    new_size: u64,
    sqnum: u64,
    group: u8,
    out: &mut [u8],
)
    requires group { group ≤ 2 }
    requires room { length out.old ≡ 56 }
    ensures { out.new ≡ written sqnum group (node_of (CutBlocks ino old_size new_size)) }
{
    let node = TrunNode {
        ino,
        old_size,
        new_size,
    };
    node.encode(sqnum, group, out);
}

fn no_bytes(alloc: Global) -> Bytes
    ensures { result ≡ [] }
{
    Bytes::from_vec(Vec::new(alloc))
}

fn no_name(alloc: Global) -> Name
    ensures { result ≡ [] }
{
    Name::from_vec(Vec::new(alloc))
}
