// What a node says of leaves.

ghost use Rattle.std.specs.Prelude.{◌≡◌, IfOk};
ghost use Rattle.leaf_recovery.specs.Found.{place_told};
ghost use Rattle.leaf_recovery.specs.Things.{becomes_leaf, ends_told, is_cut_told, is_entry_told, is_part_told, is_unlinked_told, leaf_told, node_key_told, rank_of_shown, same_name_told, shows_thing, shows_told};

use crate::recovered_leaf::Place;
use index_tree::Leaf;
use journal_scan::{JournalNode, NodeContent};
use log_replay::thing::{is_block, is_inode, is_name, is_same_name, number_of, rank};
use std::alloc::Global;
use ubifs_base::{Key, Memory, Name, r5};

// The bytes of a block.
const BLOCK_BYTES: u64 = 4096;

// The key of a node; a truncation has that of its inode.
pub(crate) fn key_of(content: &NodeContent) -> Key
    ensures { result ≡ node_key_told content.now }
{
    match content {
        NodeContent::Inode { ino, .. } => Key::Ino { ino: *ino },
        NodeContent::Block { ino, block } => Key::Block {
            ino: *ino,
            block: *block,
        },
        NodeContent::Entry { dir, name, .. } => Key::Dent {
            dir: *dir,
            hash: r5(name.as_slice()),
        },
        NodeContent::Truncation { ino, .. } => Key::Ino { ino: *ino },
        NodeContent::Unknown { key, .. } => *key,
    }
}

// The place in the order of the key of what a node shows, if that isn't what is behind a size; else 0.
pub(crate) fn rank_shown(content: &NodeContent) -> u128
    ensures { result ≡ rank_of_shown content.now }
{
    match content {
        NodeContent::Truncation { .. } => 0,
        NodeContent::Inode { .. }
        | NodeContent::Block { .. }
        | NodeContent::Entry { .. }
        | NodeContent::Unknown { .. } => rank(&key_of(content)),
    }
}

// The leaf that a node becomes where it stands.
pub(crate) fn leaf_of(node: &JournalNode) -> Leaf
    ensures { result ≡ leaf_told node.now }
{
    Leaf {
        key: key_of(&node.content),
        lnum: node.lnum,
        offs: node.offs,
        len: node.len,
    }
}

// Where a node stands.
pub(crate) fn place_of(node: &JournalNode) -> Place
    ensures { result ≡ place_told node.now }
{
    Place {
        lnum: node.lnum,
        offs: node.offs,
        len: node.len,
    }
}

// What a node says, once more. The error is want of memory.
pub(crate) fn copied(alloc: Global, content: &NodeContent) -> Result<NodeContent, Memory>
    ensures { IfOk result (λ copy. copy ≡ content.now) }
{
    match content {
        NodeContent::Inode { ino, linked } => Ok(NodeContent::Inode {
            ino: *ino,
            linked: *linked,
        }),
        NodeContent::Block { ino, block } => Ok(NodeContent::Block {
            ino: *ino,
            block: *block,
        }),
        NodeContent::Entry { dir, name, linked } => {
            let name = Name::from_slice(alloc, name.as_slice())?;
            Ok(NodeContent::Entry {
                dir: *dir,
                name,
                linked: *linked,
            })
        }
        NodeContent::Truncation { ino, new_size } => Ok(NodeContent::Truncation {
            ino: *ino,
            new_size: *new_size,
        }),
        NodeContent::Unknown { key, linked } => Ok(NodeContent::Unknown {
            key: *key,
            linked: *linked,
        }),
    }
}

// Whether a node shows an inode, a block or a name.
pub(crate) fn shows_thing(content: &NodeContent) -> bool
    ensures { result ≡ shows_thing content.now }
{
    match content {
        NodeContent::Inode { .. } => true,
        NodeContent::Block { .. } => true,
        NodeContent::Entry { linked, .. } => *linked,
        NodeContent::Truncation { .. } => false,
        NodeContent::Unknown { .. } => false,
    }
}

// Whether a node of the journal becomes a leaf.
pub(crate) fn becomes_leaf(content: &NodeContent) -> bool
    ensures { result ≡ becomes_leaf content.now }
{
    match content {
        NodeContent::Inode { linked, .. } => *linked,
        NodeContent::Block { .. } => true,
        NodeContent::Entry { linked, .. } => *linked,
        NodeContent::Truncation { .. } => false,
        NodeContent::Unknown { .. } => false,
    }
}

// Whether what a node shows is shown by another one too.
pub(crate) fn shows(one: &NodeContent, other: &NodeContent) -> bool
    ensures { result ≡ shows_told one.now other.now }
{
    match one {
        NodeContent::Inode { ino, .. } => is_inode(*ino, other),
        NodeContent::Block { ino, block } => is_block(*ino, *block, other),
        NodeContent::Entry { dir, name, .. } => is_name(*dir, name, other),
        NodeContent::Truncation { ino, new_size } => is_cut(*ino, *new_size, other),
        NodeContent::Unknown { .. } => false,
    }
}

// Whether a node of the journal makes another one's leaf obsolete.
pub(crate) fn ends(one: &NodeContent, other: &NodeContent) -> bool
    ensures { result ≡ ends_told one.now other.now }
{
    match one {
        NodeContent::Inode { ino, linked: true } => is_inode(*ino, other),
        NodeContent::Inode { ino, linked: false } => is_part(*ino, other),
        NodeContent::Block { ino, block } => is_block(*ino, *block, other),
        NodeContent::Entry { dir, name, .. } => is_name(*dir, name, other),
        NodeContent::Truncation { ino, new_size } => is_cut(*ino, *new_size, other),
        NodeContent::Unknown { linked: true, .. } => false,
        NodeContent::Unknown { key, linked: false } => is_part(number_of(key), other),
    }
}

// Whether a node is that of a block behind a size.
fn is_cut(ino: u32, size: u64, other: &NodeContent) -> bool
    ensures { result ≡ is_cut_told ino size other.now }
{
    match other {
        NodeContent::Block {
            ino: number,
            block: at,
        } => *number == ino && size <= BLOCK_BYTES * *at as u64,
        NodeContent::Inode { .. }
        | NodeContent::Entry { .. }
        | NodeContent::Truncation { .. }
        | NodeContent::Unknown { .. } => false,
    }
}

// Whether a node is that of an inode or of a block of it.
pub(crate) fn is_part(ino: u32, other: &NodeContent) -> bool
    ensures { result ≡ is_part_told ino other.now }
{
    match other {
        NodeContent::Inode { ino: number, .. } => *number == ino,
        NodeContent::Block { ino: number, .. } => *number == ino,
        NodeContent::Entry { .. } | NodeContent::Truncation { .. } | NodeContent::Unknown { .. } =>
            false,
    }
}

// Whether a node is that of an inode without links.
pub(crate) fn is_unlinked(ino: u32, other: &NodeContent) -> bool
    ensures { result ≡ is_unlinked_told ino other.now }
{
    match other {
        NodeContent::Inode {
            ino: number,
            linked,
        } => *number == ino && !*linked,
        NodeContent::Block { .. }
        | NodeContent::Entry { .. }
        | NodeContent::Truncation { .. }
        | NodeContent::Unknown { .. } => false,
    }
}

// Whether two nodes are entries of one directory and name.
pub(crate) fn is_of_name(one: &NodeContent, other: &NodeContent) -> bool
    ensures { result ≡ same_name_told one.now other.now }
{
    match one {
        NodeContent::Entry { dir, name, .. } => has_name(*dir, name, other),
        NodeContent::Inode { .. }
        | NodeContent::Block { .. }
        | NodeContent::Truncation { .. }
        | NodeContent::Unknown { .. } => false,
    }
}

fn has_name(dir: u32, name: &Name, other: &NodeContent) -> bool
    ensures { result ≡ is_entry_told dir name.now other.now }
{
    match other {
        NodeContent::Entry {
            dir: number,
            name: word,
            ..
        } => dir == *number && is_same_name(name, word),
        NodeContent::Inode { .. }
        | NodeContent::Block { .. }
        | NodeContent::Truncation { .. }
        | NodeContent::Unknown { .. } => false,
    }
}
