// The change that a node carries.

ghost use Rattle.std.specs.Prelude.{◌≡◌, ◌≤◌, ◌⊎◌, IfOk, slice_index};
ghost use Rattle.media_leaf.specs.LeafNode.{inode, truncation};
ghost use Rattle.group_nodes.specs.Nodes.{IsChangeReadOf, change_of, inode_change, entry_change};

use crate::kind::{kind_of_mode, kind_of_type};
use fs_model::{Change, Entry, Inode};
use media_leaf::{DataNode, DentNode, InoNode, TrunNode, one_node};
use std::alloc::Global;
use ubifs_base::Memory;

// Where the type stands in a node's header (`struct ubifs_ch`).
const TYPE_PLACE: usize = 20;

/// The change that a leaf node carries (ubifs-media.h), of which the bytes are all: none where they are no leaf node, and
/// where the node is that of an attribute or of an inode whose mode names no kind. The error is want of memory.
pub fn read_change(alloc: Global, bytes: &[u8]) -> Result<Option<Change>, Memory>
    ensures { IfOk result (λ read. IsChangeReadOf bytes.now read) }
{
    match type_in(bytes) {
        0 => read_inode(alloc, bytes),
        1 => read_block(alloc, bytes),
        2 | 3 => read_entry(alloc, bytes),
        4 => read_truncation(alloc, bytes),
        _ => Ok(read_none(bytes)),
    }
}

// The type that the header names. Where there is no header it is 0, and no node is read.
fn type_in(bytes: &[u8]) -> u8
    ensures { result ≡ slice_index bytes.now 20 }
{
    match bytes.get(TYPE_PLACE) {
        Some(kind) => *kind,
        None => 0,
    }
}

fn read_none(bytes: &[u8]) -> Option<Change>
    requires { 5 ≤ slice_index bytes.now 20 }
    ensures { IsChangeReadOf bytes.now result }
{
    let _ = bytes;
    None
}

fn read_inode(alloc: Global, bytes: &[u8]) -> Result<Option<Change>, Memory>
    requires { slice_index bytes.now 20 ≡ 0 }
    ensures { IfOk result (λ read. IsChangeReadOf bytes.now read) }
{
    one_node();
    let Some(node) = InoNode::decode(alloc, bytes)? else {
        return Ok(None);
    };
    Ok(change_of_inode(node))
}

fn read_block(alloc: Global, bytes: &[u8]) -> Result<Option<Change>, Memory>
    requires { slice_index bytes.now 20 ≡ 1 }
    ensures { IfOk result (λ read. IsChangeReadOf bytes.now read) }
{
    one_node();
    let Some(node) = DataNode::decode(alloc, bytes)? else {
        return Ok(None);
    };
    Ok(Some(Change::SetBlock {
        ino: node.ino,
        block: node.block,
        bytes: node.bytes,
    }))
}

fn read_entry(alloc: Global, bytes: &[u8]) -> Result<Option<Change>, Memory>
    requires { (slice_index bytes.now 20 ≡ 2) ⊎ (slice_index bytes.now 20 ≡ 3) }
    ensures { IfOk result (λ read. IsChangeReadOf bytes.now read) }
{
    one_node();
    let Some(node) = DentNode::decode(alloc, bytes)? else {
        return Ok(None);
    };
    Ok(change_of_entry(node))
}

fn read_truncation(alloc: Global, bytes: &[u8]) -> Result<Option<Change>, Memory>
    requires { slice_index bytes.now 20 ≡ 4 }
    ensures { IfOk result (λ read. IsChangeReadOf bytes.now read) }
{
    one_node();
    let Some(node) = TrunNode::decode(alloc, bytes)? else {
        return Ok(None);
    };
    Ok(Some(Change::CutBlocks {
        ino: node.ino,
        old_size: node.old_size,
        new_size: node.new_size,
    }))
}

// What an inode's node carries.
fn change_of_inode(node: InoNode) -> Option<Change>
    ensures { result ≡ inode_change node }
{
    if node.nlink == 0 {
        return Some(Change::DropInode { ino: node.ino });
    }
    let kind = kind_of_mode(node.mode)?;
    let inode = Inode {
        kind,
        mode: node.mode % 0o10000,
        uid: node.uid,
        gid: node.gid,
        flags: node.flags,
        nlink: node.nlink,
        size: node.size,
        atime: node.atime,
        ctime: node.ctime,
        mtime: node.mtime,
        extra: node.bytes,
    };
    Some(Change::SetInode {
        ino: node.ino,
        inode,
    })
}

// What an entry's node carries.
fn change_of_entry(node: DentNode) -> Option<Change>
    ensures { result ≡ entry_change node }
{
    if node.attribute {
        return None;
    }
    if node.inum == 0 {
        return Some(Change::DropEntry {
            dir: node.dir,
            name: node.name,
        });
    }
    let kind = kind_of_type(node.kind)?;
    let entry = Entry {
        dir: node.dir,
        name: node.name,
        ino: node.inum,
        kind,
    };
    Some(Change::SetEntry { entry })
}
