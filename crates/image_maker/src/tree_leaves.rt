// The nodes of the inodes, blocks and entries of a tree.

ghost use Rattle.std.specs.Prelude.{◌≡◌, ◌^◌, ◌<◌, ◌≤◌, ℕ, sum_by, IfOk};
ghost use Rattle.fs_model.specs.Cover.{entry_bytes};
ghost use Rattle.fs_model.specs.Directory.{dir_links, entries_in, links_of};
ghost use Rattle.fs_model.specs.Files.{Tree as FilesTree};
ghost use Rattle.group_nodes.specs.Nodes.{node_of, HasPlainMode};
ghost use Rattle.image_maker.specs.Leaves.{stored_size, inode_leaf, block_leaf, entry_leaf};
ghost use Rattle.image_maker.specs.Laying.{AreEntriesListed};
ghost use Rattle.image_maker.specs.Places.{placed_leaf};
ghost use Rattle.leaf_map.specs.Kept.{kept_at, node_key};
ghost use Rattle.media_leaf.specs.LeafNode.{IsLeaf};
ghost use Rattle.ubifs_base.specs.declared.key.Key.TheVariants.{Dent};
ghost use Rattle.ubifs_base.specs.R5.{r5_of};

use fs_model::{Change, Entry, Inode, Kind};
use group_nodes::node_len;
use index_tree::Leaf;
use op_groups::{dir_links, dir_size};
use std::alloc::Global;
use ubifs_base::{Bytes, Key, Memory, Name, r5};

// The change that makes an inode's node, in which these entries are.
pub(crate) fn inode_leaf(ino: u32, inode: &Inode, entries: &[Entry]) -> Result<Change, Memory>
    requires listed { AreEntriesListed entries.now }
    requires mode { inode.now.mode < 4096 }
    requires few { sum_by entry_bytes entries.now ≤ 2 ^ 30 }
    ensures mode { IfOk result (λ leaf. HasPlainMode leaf) }
    ensures node { IfOk result (λ leaf. (tree : FilesTree) → entries_in tree ino ≡ entries.now → node_of leaf ≡ inode_leaf tree ino inode.now) }
{
    let size = stored_size(inode, entries);
    let nlink = links_of(inode, entries);
    let inode = Inode {
        kind: inode.kind,
        mode: inode.mode,
        uid: inode.uid,
        gid: inode.gid,
        flags: inode.flags,
        nlink,
        size,
        atime: inode.atime,
        ctime: inode.ctime,
        mtime: inode.mtime,
        extra: inode.extra.clone()?,
    };
    Ok(Change::SetInode { ino, inode })
}

// The size that an inode's node has; a directory's is reckoned.
fn stored_size(inode: &Inode, entries: &[Entry]) -> u64
    requires few { sum_by entry_bytes entries.now ≤ 2 ^ 30 }
    ensures { (tree : FilesTree) (ino : ℕ) → entries_in tree ino ≡ entries.now → result ≡ stored_size tree ino inode.now }
{
    match inode.kind {
        Kind::Dir => dir_size(entries),
        _ => inode.size,
    }
}

// The links that an inode has; a directory's are reckoned.
fn links_of(inode: &Inode, entries: &[Entry]) -> u32
    requires listed { AreEntriesListed entries.now }
    requires few { sum_by entry_bytes entries.now ≤ 2 ^ 30 }
    ensures { (tree : FilesTree) (ino : ℕ) → entries_in tree ino ≡ entries.now → result ≡ links_of tree ino inode.now }
{
    match inode.kind {
        Kind::Dir => few_links(entries),
        _ => inode.nlink,
    }
}

// The links of a directory. Each entry takes bytes, so that they are few.
fn few_links(entries: &[Entry]) -> u32
    requires listed { AreEntriesListed entries.now }
    requires few { sum_by entry_bytes entries.now ≤ 2 ^ 30 }
    ensures { (tree : FilesTree) (dir : ℕ) → entries_in tree dir ≡ entries.now → result ≡ dir_links tree dir }
{
    dir_links(entries) as u32
}

// The change that makes a block's node, whose key is its inode and number.
pub(crate) fn block_leaf(alloc: Global, key: (u32, u32), bytes: &Bytes) -> Result<Change, Memory>
    ensures mode { IfOk result (λ leaf. HasPlainMode leaf) }
    ensures node { IfOk result (λ leaf. node_of leaf ≡ block_leaf (key, bytes.now)) }
{
    let (ino, block) = key;
    Ok(Change::SetBlock {
        ino,
        block,
        bytes: Bytes::from_slice(alloc, bytes.as_slice())?,
    })
}

// The change that makes an entry's node.
pub(crate) fn entry_leaf(entry: Entry) -> Change
    ensures mode { HasPlainMode result }
    ensures node { node_of result ≡ entry_leaf entry }
{
    Change::SetEntry { entry }
}

// The leaf that a node becomes at this place of a LEB.
pub(crate) fn leaf_at(leaf: &Change, lnum: u32, offs: u32) -> Leaf
    requires node { IsLeaf (node_of leaf.now) }
    ensures { (sqnum : ℕ) → result ≡ (kept_at (placed_leaf lnum offs (sqnum, node_of leaf.now))).leaf }
{
    Leaf {
        key: key_at(leaf),
        lnum,
        offs,
        len: node_len(leaf) as u32,
    }
}

// The key of a node, of a truncation that of its inode.
fn key_at(leaf: &Change) -> Key
    ensures { result ≡ node_key (node_of leaf.now) }
{
    match leaf {
        Change::SetInode { ino, .. } | Change::DropInode { ino } | Change::CutBlocks { ino, .. } =>
            { Key::Ino { ino: *ino } }
        Change::SetEntry { entry } => name_key(entry.dir, &entry.name),
        Change::DropEntry { dir, name } => name_key(*dir, name),
        Change::SetBlock { ino, block, .. } => Key::Block {
            ino: *ino,
            block: *block,
        },
    }
}

// The key of a name.
fn name_key(dir: u32, name: &Name) -> Key
    ensures { result ≡ Dent dir (r5_of name.now) }
{
    Key::Dent {
        dir,
        hash: r5(name.as_slice()),
    }
}
