// Nodes as bytes, one behind another, and the LEBs of a journal that have them.

ghost use Rattle.std.specs.Prelude.{◌≡◌, ◌≤◌, IfOk, IsTrue, length};
ghost use Rattle.std.specs.List.{list_all};
ghost use Rattle.media_leaf.specs.Entry.{is_name_byte};
ghost use Rattle.journal_scan.specs.Journal.{IsReadable};

use crate::samples::Says;
use journal_scan::BudText;
use media_leaf::{DataNode, DentNode, InoNode, TrunNode};
use std::alloc::Global;
use ubifs_base::{Bytes, JournalHead, Memory, Name};

// A node with its sequence number and group type.
pub(crate) type Node = (u64, u8, Says);

// The bytes of a LEB.
pub(crate) const LEB: usize = 4096;

fn put_inode(
    alloc: Global,
    bytes: &mut Vec<u8>,
    ino: u32,
    linked: bool,
    sqnum: u64,
    group: u8,
) -> Result<(), Memory>
    requires { group ≤ 2 }
{
    let node = InoNode {
        ino: ino.max(1),
        size: 0,
        atime: 0,
        ctime: 0,
        mtime: 0,
        nlink: linked as u32,
        uid: 0,
        gid: 0,
        mode: 0o100_644,
        flags: 0,
        xattr_cnt: 0,
        xattr_size: 0,
        xattr_names: 0,
        bytes: Bytes::from_vec(Vec::new(alloc)),
    };
    let mut out = [0; 160];
    node.encode_with(&[], sqnum, group, &mut out);
    bytes.extend_from_slice(&out)?;
    Ok(())
}

// A block of 24 bytes.
fn put_block(
    alloc: Global,
    bytes: &mut Vec<u8>,
    ino: u32,
    block: u16,
    sqnum: u64,
    group: u8,
) -> Result<(), Memory>
    requires { group ≤ 2 }
{
    let node = DataNode {
        ino,
        block: block as u32,
        bytes: Bytes::from_vec(Vec::new(alloc)),
    };
    let mut out = [0; 72];
    node.encode_with(&[7; 24], sqnum, group, &mut out);
    bytes.extend_from_slice(&out)?;
    Ok(())
}

// An entry's node of 59 bytes, and the bytes up to the next multiple of 8.
fn put_entry(
    alloc: Global,
    bytes: &mut Vec<u8>,
    name: &[u8],
    linked: bool,
    sqnum: u64,
    group: u8,
) -> Result<(), Memory>
    requires group { group ≤ 2 }
    requires two { length name.now ≡ 2 }
    requires plain { IsTrue (list_all is_name_byte name.now) }
{
    let node = DentNode {
        dir: 1,
        inum: 65 * linked as u32,
        kind: 0,
        name: Name::from_vec(Vec::new(alloc)),
        attribute: false,
    };
    let mut out = [0; 59];
    node.encode_with(name, sqnum, group, &mut out);
    bytes.extend_from_slice(&out)?;
    bytes.extend_from_slice(&[0; 5])?;
    Ok(())
}

fn put_cut(
    bytes: &mut Vec<u8>,
    ino: u32,
    new_size: u64,
    sqnum: u64,
    group: u8,
) -> Result<(), Memory>
    requires { group ≤ 2 }
{
    let node = TrunNode {
        ino,
        old_size: new_size,
        new_size,
    };
    let mut out = [0; 56];
    node.encode(sqnum, group, &mut out);
    bytes.extend_from_slice(&out)?;
    Ok(())
}

fn put_node(alloc: Global, bytes: &mut Vec<u8>, node: Node) -> Result<(), Memory> {
    let group = node.1.min(2);
    match node.2 {
        Says::Inode(ino, linked) => put_inode(alloc, bytes, ino, linked, node.0, group),
        Says::Block(ino, block) => put_block(alloc, bytes, ino, block, node.0, group),
        Says::Named("am", linked) => put_entry(alloc, bytes, b"am", linked, node.0, group),
        Says::Named(_, linked) => put_entry(alloc, bytes, b"bb", linked, node.0, group),
        Says::Cut(ino, new_size) => put_cut(bytes, ino, new_size, node.0, group),
    }
}

// A LEB of which so many bytes were written.
pub(crate) fn bud_of(
    alloc: Global,
    head: JournalHead,
    lnum: u32,
    nodes: &[Node],
    written: usize,
) -> Result<BudText, Memory>
    ensures { IfOk result (λ bud. IsReadable bud) }
{
    let mut bytes = Vec::new(alloc);
    for node in nodes {
        put_node(alloc, &mut bytes, *node)?;
    }
    bytes.truncate(written);
    bytes.resize(LEB, 0xff)?;
    Ok(BudText {
        head,
        lnum,
        from: 0,
        bytes: Bytes::from_vec(bytes),
    })
}
