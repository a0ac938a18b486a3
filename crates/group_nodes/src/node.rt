// The text of one change's node.

ghost use Rattle.std.specs.Prelude.{◌≡◌, ◌≤◌, length};
ghost use Rattle.media_leaf.specs.LeafNode.{IsLeaf, written};
ghost use Rattle.ubifs_base.specs.declared.key.Key.TheVariants.{Dent};
ghost use Rattle.ubifs_base.specs.R5.{r5_of};
ghost use Rattle.group_nodes.specs.Nodes.{leaf_key, node_of, HasPlainMode};
ghost use Rattle.group_nodes.specs.Texts.{leaf_len, leaf_text, text_bytes};

use crate::encode::{
    write_block, write_dropped, write_entry, write_gone, write_inode, write_truncation,
};
use fs_model::Change;
use std::alloc::Global;
use ubifs_base::{Key, Name, r5};

/// How many bytes the text of a change's node takes: the node's, and those up to a multiple of 8. Takes no memory.
pub fn text_len(change: &Change) -> usize
    requires { IsLeaf (node_of change.now) }
    ensures len { result ≡ text_bytes change.now }
    ensures most { result ≤ 4256 }
{
    node_len(change).div_ceil(8) * 8
}

/// How many bytes a change's node takes. Takes no memory.
pub fn node_len(change: &Change) -> usize
    requires { IsLeaf (node_of change.now) }
    ensures len { result ≡ leaf_len (node_of change.now) }
    ensures most { result ≤ 4256 }
{
    match change {
        Change::SetInode { inode, .. } => 160 + inode.extra.len(),
        Change::SetEntry { entry } => 57 + entry.name.len(),
        Change::DropEntry { name, .. } => 57 + name.len(),
        Change::SetBlock { bytes, .. } => 48 + bytes.len(),
        Change::CutBlocks { .. } => 56,
        Change::DropInode { .. } => 160,
    }
}

/// The key of a change's leaf in the index: its inode, its block, or its directory and the hash of its name
/// (`UBIFS_SIMPLE_KEY_FMT` of ubifs-media.h). A truncation has no leaf. Takes no memory.
pub fn key_of(change: &Change) -> Option<Key>
    ensures { result ≡ leaf_key (node_of change.now) }
{
    match change {
        Change::SetInode { ino, .. } | Change::DropInode { ino } => Some(Key::Ino { ino: *ino }),
        Change::SetEntry { entry } => Some(entry_key(entry.dir, &entry.name)),
        Change::DropEntry { dir, name } => Some(entry_key(*dir, name)),
        Change::SetBlock { ino, block, .. } => Some(Key::Block {
            ino: *ino,
            block: *block,
        }),
        Change::CutBlocks { .. } => None,
    }
}

// The key of an entry.
fn entry_key(dir: u32, name: &Name) -> Key
    ensures { result ≡ Dent dir (r5_of name.now) }
{
    Key::Dent {
        dir,
        hash: r5(name.as_slice()),
    }
}

/// Writes the text of a change's node over all of `out`: the node (ubifs-media.h), all of whose ignored bytes are 0, and
/// 0xCE up to a multiple of 8. A group type is 0 for none, 1 in a group, 2 for the last of one. Takes no memory: the
/// allocator makes empty lists alone.
#[tactic(auto, unfolding(crate::specs::Texts::leaf_text))]
pub fn write_text(alloc: Global, change: &Change, sqnum: u64, group: u8, out: &mut [u8])
    requires node { IsLeaf (node_of change.now) }
    requires mode { HasPlainMode change.now }
    requires group { group ≤ 2 }
    requires room { length out.old ≡ text_bytes change.now }
    ensures { out.new ≡ leaf_text sqnum group (node_of change.now) }
{
    let (node, padding) = out.split_at_mut(node_len(change));
    write_node(alloc, change, sqnum, group, node);
    padding.fill(0xce);
}

// Writes the node alone.
fn write_node(alloc: Global, change: &Change, sqnum: u64, group: u8, out: &mut [u8])
    requires node { IsLeaf (node_of change.now) }
    requires mode { HasPlainMode change.now }
    requires group { group ≤ 2 }
    requires room { length out.old ≡ leaf_len (node_of change.now) }
    ensures { out.new ≡ written sqnum group (node_of change.now) }
{
    match change {
        Change::SetInode { ino, inode } => write_inode(alloc, *ino, inode, sqnum, group, out),
        Change::SetEntry { entry } => write_entry(alloc, entry, sqnum, group, out),
        Change::DropEntry { dir, name } => write_dropped(alloc, *dir, name, sqnum, group, out),
        Change::SetBlock { ino, block, bytes } => {
            write_block(alloc, *ino, *block, bytes, sqnum, group, out)
        }
        Change::CutBlocks {
            ino,
            old_size,
            new_size,
        } => write_truncation(*ino, *old_size, *new_size, sqnum, group, out),
        Change::DropInode { ino } => write_gone(alloc, *ino, sqnum, group, out),
    }
}
